//! A bundle as one tree, with which a journal begins.
#![tactic(auto)]

mod documents;
mod length;
mod start_tree;

pub use length::start_length;
pub use start_tree::to_tree;
