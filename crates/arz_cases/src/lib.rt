//! Cases of tests as data: what a case describes, and what a call comes to.
#![tactic(auto)]

mod case;
mod fault;
mod outcome;

pub use case::Case;
pub use fault::CaseFault;
pub use outcome::{Outcome, brief, flag_word, text_of};
