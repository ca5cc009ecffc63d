//! Sessions: runs of a workflow over given replies.
#![tactic(auto)]

pub mod laws;
mod over_replies;
mod session;

pub use over_replies::mock;
pub use session::{How, Line, Outcome, Session};
