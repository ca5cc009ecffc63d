// A sink in memory, of which chosen calls fail.
ghost use Rattle.std.specs.Prelude.{◌≡◌, ◌+◌, ◌≤◌, [], OnOk, IsErrOf, MatchResult, true, false};
ghost use Rattle.arz_world.specs.Outside.{HasCause, Gains, IsPrefix};

use crate::calls::is_due;
use crate::{Sink, SinkFault};
use arz_json::Many;
use std::alloc::Global;
use std::marker::Model;

/// A sink in memory, of which chosen calls fail. Contracts see it as a `SinkInMemory`.
#[derive(Drop)]
pub struct MemorySink {
    held: Vec<u8>,
    failing: Many<u32>,
    calls: u64,
    faults: u64,
}

impl Model for MemorySink {
    ghost use Rattle.arz_world.specs.Memory.{SinkInMemory};

    ghost Value = { SinkInMemory };

    ghost view = { λ s. record { held = s.held.items; failing = s.failing; calls = s.calls; faults = s.faults } };
}

impl MemorySink {
    /// An empty sink of which the calls with these numbers fail. The first call has the number 1,
    /// and a call that wants for memory has its number too.
    pub fn new(alloc: Global, failing: Many<u32>) -> MemorySink
        ensures { result ≡ record { held = []; failing = failing; calls = 0; faults = 0 } }
    {
        MemorySink {
            held: Vec::new(alloc),
            failing,
            calls: 0,
            faults: 0,
        }
    }

    /// The bytes that were put so far.
    pub fn bytes(&self) -> &[u8]
        ensures { result.now ≡ self.now.held }
    {
        &self.held
    }
}

impl Sink for MemorySink {
    ghost use Rattle.std.specs.declared.option.Option.TheVariants.{Some};
    ghost use Rattle.arz_world.specs.Memory.{put_fails, sink_put, sink_failed, sink_called};

    ghost sink = { λ s. record { held = Some s.held; faults = s.faults } };

    fn put(&mut self, bytes: &[u8]) -> Result<(), SinkFault>
        ensures held { Gains (⟦<MemorySink as Sink>⟧.sink self.old).held (⟦<MemorySink as Sink>⟧.sink self.new).held
            (λ added. MatchResult result (λ _. added ≡ bytes.now) (λ _. IsPrefix added bytes.now)) }
        ensures cause { HasCause SinkFault.Failed (⟦<MemorySink as Sink>⟧.sink self.old).faults (⟦<MemorySink as Sink>⟧.sink self.new).faults result }

        // It fails at the calls that were chosen, and nowhere else.
        ensures succeeds { OnOk result (put_fails self.old ≡ false) }
        ensures fails { IsErrOf result SinkFault.Failed → put_fails self.old ≡ true }

        // What stands after each answer: no fault puts any byte.
        ensures ok { OnOk result (self.new ≡ sink_put self.old bytes.now) }
        ensures failed { IsErrOf result SinkFault.Failed → self.new ≡ sink_failed self.old }
        ensures memory { IsErrOf result SinkFault.Memory → self.new ≡ sink_called self.old }
    {
        self.calls = self.calls.saturating_add(1);
        if is_due(self.failing.as_slice(), self.calls) {
            self.faults = self.faults.saturating_add(1);
            return Err(SinkFault::Failed);
        }
        self.held.extend_from_slice(bytes)?;
        Ok(())
    }
}
