//! Calls of the libraries of patterns, queries and overlays, over what cases describe. [`QueryCall`] lists them.
#![tactic(auto)]

mod calls;
mod overlays;
mod paths;
mod patterns;
mod queries;

pub use calls::QueryCall;
pub use patterns::patterns_of;
