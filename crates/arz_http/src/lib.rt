//! The bytes of requests and replies (RFC 9112). Those of a reply come in pieces that nobody chooses.
#![tactic(auto)]

mod bodies;
mod chunks;
mod fault;
mod frames;
mod head_lines;
mod heads;
pub mod laws;
mod reader;
mod replies;
mod requests;
mod slices;
mod standing;

pub use fault::{PeerCause, PeerFault, ReplyFault};
pub use reader::{Fed, Reader};
pub use replies::reply;
pub use requests::write_request;
