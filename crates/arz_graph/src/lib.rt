//! Directed graphs: which nodes lie on a cycle, in time linear in nodes and edges.
#![tactic(auto)]

mod cycles;
pub mod laws;
mod search;

pub use cycles::on_cycles;
