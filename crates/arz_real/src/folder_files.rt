// The files of the folder that the program runs in. What they hold isn't told.
ghost use Rattle.std.specs.Prelude.{◌≤◌, length, IfOk, None};
ghost use Rattle.arz_world.specs.Memory.{times};

use arz_json::{Many, Text};
use arz_world::{FileFault, Files, note_fault};
use std::alloc::Global;
use std::fs::File;
use std::io::{ErrorKind, Read};
use std::{io, rt};

/// The files of the current folder, by their paths relative to it.
#[derive(Drop)]
pub struct FolderFiles<'a, R> {
    rt: &'a R,
    alloc: Global,
    failed: Many<Text>,
}

impl<'a, R: rt::Files + AllocGlobal> FolderFiles<'a, R> {
    /// Opens nothing yet.
    pub fn new(rt: &'a R) -> Self {
        let alloc = rt.alloc();
        FolderFiles {
            rt,
            alloc,
            failed: Many::new(alloc),
        }
    }
}

impl<'a, R: rt::Files + AllocGlobal> Files for FolderFiles<'a, R> {
    ghost files = { λ f. record { told = λ path. None; faults = λ path. times f.failed path } };

    fn read(&mut self, path: &str, limit: u64) -> Result<Vec<u8>, FileFault> {
        match read_start(self.rt, path, limit.saturating_add(1)) {
            Ok(bytes) => Ok(bytes),
            Err(fault) => {
                if fault.kind() == ErrorKind::OutOfMemory {
                    return Err(FileFault::Memory);
                }
                note_fault(self.alloc, &mut self.failed, path)?;
                Err(FileFault::Failed)
            }
        }
    }
}

// At most this many bytes from the front of the file.
fn read_start<R: rt::Files + AllocGlobal>(rt: &R, path: &str, most: u64) -> io::Result<Vec<u8>>
    ensures { IfOk result (λ bytes. length bytes.items ≤ most) }
{
    let mut bytes = Vec::new(rt.alloc());
    File::open(rt, path)?.take(most).read_to_end(&mut bytes)?;
    bytes.truncate(most as usize);
    Ok(bytes)
}
