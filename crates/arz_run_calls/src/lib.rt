//! Calls of the libraries that a run is made of, over what cases describe: files and sinks in memory, what
//! expressions speak of, the lines of asks and ends, and retries. [`RunCall`] lists them.
#![tactic(auto)]

mod calls;
mod messages;
mod outside;
mod retries;

pub use calls::RunCall;
pub use outside::{files_of, sink_of};
