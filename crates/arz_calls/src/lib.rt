//! Calls of libraries over what cases describe. [`LibraryCall`] lists them.
#![tactic(auto)]

mod calls;
mod descriptions;
mod operations;
mod styles;

pub use calls::LibraryCall;
