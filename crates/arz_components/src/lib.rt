//! The components of a description of workflows (Arazzo 1.0.1, section 4.6.9), found by their names, and the reusable
//! objects (section 4.6.10) that stand for them.
#![tactic(auto)]

mod components;
mod reuse;
mod texts;

pub use components::{Components, Part};
pub use reuse::{actual, is_reuse, reused_name};
pub use texts::{after, input_name, text_of};
