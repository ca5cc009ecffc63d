//! Descriptions of workflows (Arazzo 1.0.1): reading one, the rules that it must keep by itself, and the least of them
//! that it fails.
//!
//! | number | fails where |
//! |---|---|
//! | 3 | a member is missing or of another kind, or a parameter that goes into requests refers to one without a place |
//! | 4 | the version isn't one of Arazzo 1.0 |
//! | 5 | the name of a source, workflow, step, output or component is no name |
//! | 6 | what tells the items of a list apart stands a second time |
//! | 7 | members of a step or of an action exclude each other |
//! | 8 | a workflow, step, source or component that is named isn't there, or a source is a description of workflows |
//! | 9 | a workflow depends on itself |
//! | 10, 11 | the type of a criterion is XPath, or an object |
//! | 12 | a number isn't kept, or, with the criteria, a condition or a query has a fraction |
//! | 13 | a text that must be an expression or an operationPath is none |
//! | 14, 15, 16 | with the criteria: a condition, a query or a pattern can't be read |
//! | 22, 23 | a header field may not be given, or a media type can't be sent |
//! | 24 | a list is too long, or a number too large |
#![tactic(auto)]

mod cycles;
pub mod laws;
mod order;
mod reading;

pub use arz_description::Description;
pub use order::{Failure, check, first_refusal, first_refusal_with_criteria};
pub use reading::read;
