//! An exchange with a peer: a request goes out on a connection, and its reply comes back.
#![tactic(auto)]

mod conversation;
mod receiving;
mod slot;

pub use conversation::{ConverseFault, converse};
pub use slot::Slot;
