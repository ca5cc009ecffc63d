//! The rules of criteria (Arazzo 1.0.1, section 4.6.11), wherever a description writes them: each call finds the least
//! place at which a description fails one.
#![tactic(auto)]

mod conditions;
pub mod laws;
mod patterns;
mod readings;

pub use conditions::{first_bad_condition, first_bad_path, first_fraction_condition};
pub use readings::{Readings, first_bad_pattern};
