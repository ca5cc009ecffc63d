//! Operations of OpenAPI 3.1 documents: what one is, and which operation of a document a name means.
//!
//! The definitions are in `specs/`: references, parameters, servers, and where operations stand. The functions read
//! the single parts; documents are checked, and operations found, by `arz_openapi`.
#![tactic(auto)]

mod parameters;
mod references;
mod servers;
mod types;

pub use parameters::read_parameter;
pub use references::{Lost, follow, is_reference};
pub use servers::fill;
pub use types::{Call, Described, Operation};
