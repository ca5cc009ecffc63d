//! Criteria (Arazzo 1.0.1, section 4.6.11): conditions, patterns and queries that decide whether a step succeeded.
#![tactic(auto)]

mod cause;
mod compare;
mod evaluate;
mod fault;
mod holds;
pub mod laws;
mod literals;
mod numbers;
mod parsing;
mod pieces;
mod reading;
mod term;
mod test;
mod trees;
mod values;
mod words;

pub use cause::CondFault;
pub use fault::TestFault;
pub use term::{Comparison, Literal, Term};
pub use test::Test;
pub use trees::fault_of;
