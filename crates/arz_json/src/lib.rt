//! JSON values (RFC 8259) as trees that contracts see as plain data: reading them from bytes,
//! printing them, copying, comparing, and naming their parts by JSON Pointers (RFC 6901).
//!
//! `serde_json` reads and prints. An integer of -2^63 to 2^64 - 1 is kept; a number with a fraction or
//! an exponent, `-0` and an integer past that range are `Json::Opaque`.
#![tactic(auto)]

mod compare;
mod copies;
pub mod laws;
mod look;
mod many;
mod number;
mod place;
mod placing;
mod pointer;
mod reader;
mod text;
mod tree;
mod writer;

pub use compare::same;
pub use copies::{copy, holds_opaque};
pub use look::{into_value_named, items_at, members_at, text_at, value_named};
pub use many::Many;
pub use place::{Place, Token};
pub use placing::{PutFault, is_deeper, put, swap_child};
pub use pointer::at;
pub use reader::{JsonFault, read};
pub use text::{Bytes, Text, split_once};
pub use tree::{Json, Location, Member, Members, Named, NamedText, Refusal, Style};
pub use writer::{CompactFault, compact, compact_string};
