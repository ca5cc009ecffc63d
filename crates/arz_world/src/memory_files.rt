// Files in memory, of which chosen calls fail.
ghost use Rattle.std.specs.Prelude.{◌≡◌, ◌+◌, ◌≤◌, length, [], ℕ, List, IfOk, OnOk, IsErrOf, true, false};
ghost use Rattle.arz_world.specs.Outside.{HasCause, ReadsAs};

use crate::calls::{note_fault, readable, start_of};
use crate::{FileFault, Files};
use arz_json::{Bytes, Many, Text};
use std::alloc::Global;
use std::marker::Model;

/// A file in memory.
#[derive(Debug, Drop)]
pub struct NamedBytes {
    /// The path that it is read by.
    pub path: Text,
    /// What it holds.
    pub bytes: Bytes,
}

/// Files in memory, of which chosen calls fail. Contracts see them as a `FilesInMemory`.
#[derive(Drop)]
pub struct MemoryFiles {
    alloc: Global,
    files: Many<NamedBytes>,
    failing: Many<u32>,
    calls: u64,
    failed: Many<Text>,
}

impl Model for MemoryFiles {
    ghost use Rattle.arz_world.specs.Memory.{FilesInMemory};

    ghost Value = { FilesInMemory };

    ghost view = { λ m. record { files = m.files; failing = m.failing; calls = m.calls; failed = m.failed } };
}

impl MemoryFiles {
    /// Files of which the calls with these numbers fail. The first call has the number 1, and a call
    /// that wants for memory has its number too. Of files with one path the first is read.
    pub fn new(alloc: Global, files: Many<NamedBytes>, failing: Many<u32>) -> MemoryFiles
        ensures { result ≡ record { files = files; failing = failing; calls = 0; failed = [] } }
    {
        MemoryFiles {
            alloc,
            files,
            failing,
            calls: 0,
            failed: Many::new(alloc),
        }
    }
}

impl Files for MemoryFiles {
    ghost use Rattle.std.specs.declared.option.Option.TheVariants.{Some};
    ghost use Rattle.arz_world.specs.Memory.{found, times, read_fails, files_called, files_failed};

    ghost files = { λ m. record { told = λ path. Some (found m.files path); faults = λ path. times m.failed path } };

    fn read(&mut self, path: &str, limit: u64) -> Result<Vec<u8>, FileFault>
        ensures bytes { IfOk result (λ bytes. ReadsAs ((⟦<MemoryFiles as Files>⟧.files self.old).told path.now) limit bytes.items) }
        ensures size { IfOk result (λ bytes. length bytes.items ≤ limit + 1) }
        ensures told { (⟦<MemoryFiles as Files>⟧.files self.new).told ≡ (⟦<MemoryFiles as Files>⟧.files self.old).told }
        ensures cause { HasCause FileFault.Failed ((⟦<MemoryFiles as Files>⟧.files self.old).faults path.now) ((⟦<MemoryFiles as Files>⟧.files self.new).faults path.now) result }
        ensures counts { (p : List ℕ) → (⟦<MemoryFiles as Files>⟧.files self.old).faults p ≤ (⟦<MemoryFiles as Files>⟧.files self.new).faults p }

        // It fails at the calls that were chosen and where no file is there, and nowhere else.
        ensures succeeds { OnOk result (read_fails self.old path.now ≡ false) }
        ensures fails { IsErrOf result FileFault.Failed → read_fails self.old path.now ≡ true }

        // What stands after each answer.
        ensures ok { OnOk result (self.new ≡ files_called self.old) }
        ensures failed { IsErrOf result FileFault.Failed → self.new ≡ files_failed self.old path.now }
        ensures memory { IsErrOf result FileFault.Memory → self.new ≡ files_called self.old }
    {
        self.calls = self.calls.saturating_add(1);
        let files = self.files.as_slice();
        match readable(files, self.failing.as_slice(), self.calls, path) {
            Some(bytes) => Ok(start_of(self.alloc, bytes, limit)?),
            None => {
                note_fault(self.alloc, &mut self.failed, path)?;
                Err(FileFault::Failed)
            }
        }
    }
}
