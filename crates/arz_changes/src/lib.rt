//! Changes of a tree at places (Overlay 1.0.0, section 4.4.3.1): merging the update of an action into a tree at
//! a place, and removing a set of places, each in time that doesn't grow with what stays as it is.
#![tactic(auto)]

mod changing;
mod children;
mod groups;
mod looking;
mod members;
mod merging;
mod removing;
mod tally;

pub use changing::{ChangeFault, update_at};
pub use groups::Way;
pub use looking::{is_container, removal_rule_of, standing};
pub use merging::merged;
pub use removing::without;
pub use tally::Tally;
