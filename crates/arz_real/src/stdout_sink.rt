// Standard output. What it holds isn't told.
ghost use Rattle.std.specs.Prelude.{None};

use arz_world::{Sink, SinkFault};
use std::io;
use std::io::{ErrorKind, Write};

/// The standard output of the program.
#[derive(Drop)]
pub struct StdoutSink<'a, R> {
    rt: &'a R,
    faults: u64,
}

impl<'a, R: Print> StdoutSink<'a, R> {
    /// Writes nothing yet.
    pub fn new(rt: &'a R) -> Self {
        StdoutSink { rt, faults: 0 }
    }
}

impl<'a, R: Print> Sink for StdoutSink<'a, R> {
    ghost sink = { λ s. record { held = None; faults = s.faults } };

    fn put(&mut self, bytes: &[u8]) -> Result<(), SinkFault> {
        match io::writer(self.rt).write_all(bytes) {
            Ok(()) => Ok(()),
            Err(fault) => {
                if fault.kind() == ErrorKind::OutOfMemory {
                    return Err(SinkFault::Memory);
                }
                self.faults = self.faults.saturating_add(1);
                Err(SinkFault::Failed)
            }
        }
    }
}
