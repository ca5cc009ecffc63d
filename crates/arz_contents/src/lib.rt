//! The rules of what the parts of a description say (Arazzo 1.0.1, section 4.6): each call finds the least place at
//! which a description fails one.
#![tactic(auto)]

mod criteria;
mod limits;
mod requests;
mod values;

pub use criteria::{first_type_object, first_xpath};
pub use limits::first_over_limit;
pub use requests::{first_bad_header, first_bad_media_type};
pub use values::{first_bad_expression, first_fraction};
