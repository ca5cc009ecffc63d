// Files that are read by path.
ghost use Rattle.std.specs.Prelude.{◌≡◌, ◌+◌, ◌≤◌, ℕ, List, length, IfOk};
ghost use Rattle.arz_world.specs.Outside.{HasCause, ReadsAs, FilesView};
ghost use Rattle.arz_world.specs.declared.files.FileFault.TheVariants.{Memory};

use std::alloc::{AllocError, AllocFailed};

/// Why a file was not read.
#[derive(Clone, Copy, Debug, PartialEq, Eq)]
pub enum FileFault {
    /// No file is there, or reading it failed. The count of failed reads of its path has risen.
    Failed,
    /// There was not enough memory.
    Memory,
}

impl From<AllocError> for FileFault {
    ghost from_gives = { λ _ e. e ≡ Memory };

    fn from(_: AllocError) -> Self {
        FileFault::Memory
    }
}

impl<T: Drop> From<AllocFailed<T>> for FileFault {
    ghost from_gives = { λ _ e. e ≡ Memory };

    fn from(_: AllocFailed<T>) -> Self {
        FileFault::Memory
    }
}

/// Files that are read by path, as of a folder.
pub trait Files {
    /// What is told of each path, and how often a read of it has failed.
    ghost files: { Self → FilesView };

    /// Reads the whole file at `path`, or its first `limit + 1` bytes where it is longer, so that a
    /// file of more than `limit` bytes shows. No read changes what any path holds.
    fn read(&mut self, path: &str, limit: u64) -> Result<Vec<u8>, FileFault>
        ensures bytes { IfOk result (λ bytes. ReadsAs ((files self.old).told path.now) limit bytes.items) }
        ensures size { IfOk result (λ bytes. length bytes.items ≤ limit + 1) }
        ensures told { (files self.new).told ≡ (files self.old).told }
        ensures cause { HasCause FileFault.Failed ((files self.old).faults path.now) ((files self.new).faults path.now) result }
        ensures counts { (p : List ℕ) → (files self.old).faults p ≤ (files self.new).faults p };
}
