//! Calls of the libraries of trees and of expressions, over what cases describe. [`TreeCall`] lists them.
#![tactic(auto)]

mod calls;
mod expressions;
mod trees;

pub use calls::TreeCall;
