//! What the program reads and writes: requests and replies, the traits of the outside, and forms of
//! them in memory.
#![tactic(auto)]

mod calls;
mod files;
mod memory_files;
mod memory_sink;
mod memory_world;
mod messages;
mod peers;
mod sink;
mod tape;
mod world;

pub use calls::note_fault;
pub use files::{FileFault, Files};
pub use memory_files::{MemoryFiles, NamedBytes};
pub use memory_sink::MemorySink;
pub use memory_world::MemoryWorld;
pub use messages::{Header, Reply, Request, Sent, Server};
pub use sink::{Sink, SinkFault};
pub use tape::{Call, Span, Torn};
pub use world::{DiskFault, LinkFault, Talk, World};
