//! The rules of names in a description (Arazzo 1.0.1, section 4.6): each call finds the least place at which a
//! description fails one.
#![tactic(auto)]

mod duplicates;
mod exclusive;
mod names;
mod references;
mod repeats;

pub use duplicates::first_duplicate;
pub use exclusive::first_mixture;
pub use names::{first_bad_version, first_wrong_name};
pub use references::{first_lost_reference, first_placeless_use};
