//! Criteria (Arazzo 1.0.1, section 4.6.11) and actions (sections 4.6.7 and 4.6.8) that are read once, to be tried as
//! often as a run asks for them. A component (section 4.6.9) to which several items refer is read once and shared.
#![tactic(auto)]

mod actions;
mod criteria;
mod joining;
mod ready;
mod shared;

pub use actions::Actions;
pub use criteria::{all_hold, read_criteria};
pub use joining::joined;
pub use ready::Ready;
