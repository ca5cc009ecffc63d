//! Requests that OpenAPI describes: the parameters and the body that a step gives, written as the operation wants them,
//! and the lines and bytes that are sent (OpenAPI 3.1.1, section 4.8; RFC 9112).
#![tactic(auto)]

mod body;
mod cause;
mod described;
mod filling;
mod headers;
mod joined;
mod media_types;
mod parameters;
mod path_texts;
mod places;
mod replacements;
mod requests;
mod size;
mod target;

pub use cause::{BuildFault, Cause};
pub use requests::build;
