// What takes the report.
ghost use Rattle.std.specs.Prelude.{◌≡◌, ℕ, List, MatchResult};
ghost use Rattle.arz_world.specs.Outside.{HasCause, Gains, IsPrefix, SinkView};
ghost use Rattle.arz_world.specs.declared.sink.SinkFault.TheVariants.{Memory};

use std::alloc::AllocError;

/// Why bytes were not put, or not all of them.
#[derive(Clone, Copy, Debug, PartialEq, Eq)]
pub enum SinkFault {
    /// Writing failed. The count of failed puts has risen.
    Failed,
    /// There was not enough memory.
    Memory,
}

impl From<AllocError> for SinkFault {
    ghost from_gives = { λ _ e. e ≡ Memory };

    fn from(_: AllocError) -> Self {
        SinkFault::Memory
    }
}

/// A stream that bytes are written to, as standard output.
pub trait Sink {
    /// The bytes that were put so far, where they are told, and how often a put has failed.
    ghost sink: { Self → SinkView };

    /// Puts the bytes behind those that were put before. After a fault a prefix of them was put.
    fn put(&mut self, bytes: &[u8]) -> Result<(), SinkFault>
        ensures held { Gains (sink self.old).held (sink self.new).held
            (λ added. MatchResult result (λ _. added ≡ bytes.now) (λ _. IsPrefix added bytes.now)) }
        ensures cause { HasCause SinkFault.Failed (sink self.old).faults (sink self.new).faults result };
}
