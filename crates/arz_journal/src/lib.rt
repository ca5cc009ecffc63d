//! A log of entries in a file, in which one append is atomic at every moment.
#![tactic(auto)]

mod attach;
mod block;
mod log;
mod reading;

pub use log::{JournalFault, Log};
