//! What the expressions of a run speak of: the run's inputs, the outputs of its steps, the completed workflows, and
//! the request and reply of an attempt (Arazzo 1.0.1, section 4.7); and the outputs that they give.
#![tactic(auto)]

mod bodies;
mod exchange;
mod facts;
mod fields;
mod lookups;
mod output_values;
mod remembered;
mod run_scope;

pub use exchange::Exchange;
pub use facts::{Completion, Fact};
pub use output_values::{any_opaque, outputs};
pub use remembered::{Remembered, Tried};
pub use run_scope::RunScope;
