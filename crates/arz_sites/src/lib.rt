//! Where the parts of a description stand (Arazzo 1.0.1, section 4.6), checks that are made at each of them, and what
//! its texts are asked to be.
#![tactic(auto)]

mod checks;
mod guards;
mod sites;
mod texts;

pub use checks::Wanted;
pub use guards::{
    Below, UnlessFlow, UnlessReuse, first_in_actions, first_in_criteria, runs_workflow,
};
pub use sites::{
    failure_items, failure_lists, listed_actions, named, names, outputs, own_failure_items,
    own_items, own_success_items, parameters, shared_actions, success_items, success_lists, values,
};
pub use texts::{is_value_text, source_and_id, source_and_pointer};
