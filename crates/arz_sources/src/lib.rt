//! The rules that the steps of a description (Arazzo 1.0.1, section 4.6.5) keep against its source documents.
//!
//! | number | fails where |
//! |---|---|
//! | 3, 18, 19 | the parameters or the body of the operation that a step calls, or their references, fail this rule |
//! | 8 | they do, or no source has the operation |
//! | 17 | an operationId that names no source is in two or more of them |
//! | 20 | no server of the operation applies, or its URL is none that requests are sent to |
//! | 21 | a name of the operation's path has no parameter in path |
#![tactic(auto)]

mod calls;
mod failures;
mod found;
mod given;
mod sources;
mod steps;

pub use calls::Target;
pub use found::{find_targets, target_of};
pub use sources::{Source, Sources, read_sources};
pub use steps::check_steps;
