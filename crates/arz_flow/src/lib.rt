//! What a workflow's execution is: asks, answers, ends, and the relation between them.
#![tactic(auto)]

mod answers;
mod bundle;
mod endpoint;
pub mod laws;
mod lines;

pub use answers::{Answer, Ask, End, Spot};
pub use arz_json::{items_at, members_at, text_at};
pub use arz_request::Cause;
pub use arz_scope::Fact;
pub use bundle::Bundle;
pub use endpoint::Endpoint;
pub use lines::{ask_text, end_line, send_text};
