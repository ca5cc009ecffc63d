//! Queries of JSONPath (RFC 9535) as trees, and reading them from texts.
#![tactic(auto)]

mod answers;
mod expressions;
mod fault;
pub mod laws;
mod nesting;
mod numbers;
mod pieces;
mod query;
mod quoted;
mod reading;
mod selectors;
mod spelled;
mod terms;
mod text;
mod words;

pub use fault::PathFault;
pub use nesting::MAX_OPEN;
pub use pieces::{Flaw, FlawKind, Marks};
pub use query::{Comparison, Operand, Segment, Selector, Slice, Start, Test};
pub use spelled::Query;
pub use text::Text;
