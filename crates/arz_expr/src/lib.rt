//! Runtime expressions (Arazzo 1.0.1, section 4.7): texts such as `$steps.login.outputs.token` or
//! `$response.body#/id`, read by their grammar as expressions, and the values that they stand for.
#![tactic(auto)]

mod filling;
pub mod laws;
mod names;
mod pieces;
mod reading;
mod syntax;
mod template;
mod values;

pub use filling::{FillFault, fill};
pub use syntax::{Base, Expr, Tail};
pub use template::{Body, Given, Replacement, Template};
pub use values::{Scope, value};
