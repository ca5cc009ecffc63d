//! What the execution of any workflow is: asks, answers, ends, and the relation between them, with actions, inner runs,
//! dependencies and retries; and of retries, how often they were made and how long they wait. It takes the place of
//! `arz_flow`'s relation, which knows the linear run alone, once the machine runs by it.
#![tactic(auto)]

mod counts;
mod delays;
mod ends;
pub mod laws;
mod retries;

pub use counts::{copied, made, once_more};
pub use delays::delay;
pub use ends::End;
pub use retries::Count;
