//! Rules of documents: how they are stated, and how the first that fails is found.
//!
//! A rule is a function from a tree to the places at which the tree fails it, in any order; the place
//! that is told is the least of them. The shape of trees is a table of kinds, and each other rule is made
//! of sites and checks.
#![tactic(auto)]

mod forms;
mod kinds;
pub mod laws;
mod look;
mod phases;
mod place;
mod pointer;
mod sets;
mod shape;
mod sites;
mod texts;

pub use forms::{Choice, Field, Form, Need, Others, Size};
pub use kinds::{Kind, form_at};
pub use look::{child, text_named};
pub use phases::{RuleFault, refuse, refuse_if};
pub use place::{below_index, below_name, lesser, root_place, root_unless};
pub use pointer::pointer_text;
pub use sets::{Among, Distinct, Keyed, TextSet, TextUnder, texts_at};
pub use shape::first_miss;
pub use sites::{Check, Way, first_at, first_at_each};
pub use texts::{
    BadName, BadNames, BadVersion, is_field_value, is_name, is_pointer, is_prefixed, is_token,
    is_version,
};
