//! The wire form of trees: one spelling in bytes for each JSON tree, written, and read with the first
//! fault told by its place.
#![tactic(auto)]

mod entry;
mod fault;
mod items;
pub mod laws;
mod measure;
mod number;
mod reading;
mod writing;

pub use entry::{Entry, Mark, decode};
pub use fault::WireFault;
pub use measure::{number_length, tree_length};
pub use reading::read;
pub use writing::write;
