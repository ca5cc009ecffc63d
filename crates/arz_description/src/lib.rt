//! Descriptions of workflows (Arazzo 1.0.1, section 4.6) as plain data: what each part of a description says, with
//! components (section 4.6.9) in the place of the reusable objects that refer to them. Every tree is read as some
//! description: what it lacks has a default, and whether it lacks something is another crate's question.
#![tactic(auto)]

mod actions;
mod calls;
mod lists;
mod outputs;
mod parts;
mod requests;
mod steps;
mod whole;

pub use actions::{meant, read_act};
pub use arz_expr::{Body, Given, Replacement};
pub use arz_operation::Call;
pub use calls::{source_and_id, source_and_pointer};
pub use parts::{Act, Action, Criterion, Description, First, Output, Source, Step, Workflow};
pub use requests::{read_body, read_givens};
pub use whole::described;
