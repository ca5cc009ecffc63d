//! What the program does: it reads the words, does what they say, and puts a report.
#![tactic(auto)]

mod ending;
pub mod laws;
mod report;
mod run;
mod words;

pub use ending::Ending;
pub use run::run_words;
pub use words::Command;
