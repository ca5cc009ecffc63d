//! Calls of the libraries that a step is made of, over what cases describe: its request, and its criteria.
//! [`StepCall`] lists them.
#![tactic(auto)]

mod bases;
mod builds;
mod calls;
mod criteria;

pub use calls::StepCall;
