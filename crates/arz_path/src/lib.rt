//! Evaluating queries of JSONPath (RFC 9535): the places of a tree that a query selects, in order.
#![tactic(auto)]

mod children;
mod evaluate;
mod fault;
mod finding;
mod known;
pub mod laws;
mod nodes;
mod pick;
mod push;
mod search;
mod selecting;
mod values;
mod walk;

pub use arz_json::{Place, Token};
pub use arz_query::{PathFault, Query};
pub use fault::SelectFault;
pub use finding::found;
pub use selecting::{any, select};
