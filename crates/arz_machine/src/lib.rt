//! The machine that executes a workflow: it makes the requests, and is told the replies.
#![tactic(auto)]

mod answers;
mod endpoints;
mod given;
mod machine;
mod run;
mod state;
mod tests;
mod turns;
mod verdicts;
mod workflow;

pub use machine::{Machine, MachineFault, Next};
