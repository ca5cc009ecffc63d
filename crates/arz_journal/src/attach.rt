// How a log begins: its file is attached, and the first bytes are read.
ghost use Rattle.std.specs.Prelude.{◌≡◌, ◌≢◌, ◌⊎◌, ◌==◌, not, [], ◌∷◌, length, Ok, Err, IfOk, OnOk, OnErr, IsErrOf, IsTrue};
ghost use Rattle.std.specs.Str.{bytes_eq};
ghost use Rattle.arz_world.specs.Outside.{Rose, HasCause};
ghost use Rattle.arz_world.specs.World.{IsStable};
ghost use Rattle.arz_journal.specs.Journal.{magic};
ghost use Rattle.arz_journal.specs.Logs.{Looks, FirstGate};

use crate::log::JournalFault;
use arz_world::{DiskFault, World};

const MAGIC: [u8; 8] = [65, 82, 90, 74, 82, 78, 76, 49];

/// Attaches the file and syncs it, so that what is read of it stays. Gives its length in bytes.
pub(crate) fn barrier<W: World>(world: &mut W, path: &str) -> Result<u64, DiskFault>
    ensures size { IfOk result (λ size. IsTrue (W.told world.old).tells → size ≡ length (W.told world.new).file) }
    ensures stable { OnOk result (IsStable (W.told world.new)) }
    ensures path { OnOk result (IsTrue (W.told world.old).tells → (W.told world.new).attached ≡ path.now) }
    ensures looks { Looks (W.told world.old) (W.told world.new) }
    ensures cause { HasCause DiskFault.Failed (W.told world.old).disk_faults (W.told world.new).disk_faults result }
{
    world.attach(path)?;
    world.sync()?;
    let size = world.size()?;
    Ok(size)
}

fn is_magic(bytes: &[u8]) -> bool
    ensures { result ≡ bytes_eq bytes.now magic }
{
    bytes == MAGIC.as_slice()
}

/// Reads the first bytes of a file of so many bytes. Whether it gives nothing, and a journal can be made of it.
pub(crate) fn first_gate<W: World>(world: &mut W, size: u64) -> Result<bool, JournalFault>
    ensures gives { IsTrue (W.told world.old).tells → size ≡ length (W.told world.old).file → FirstGate (W.told world.old).file result }
    ensures looks { Looks (W.told world.old) (W.told world.new) }
    ensures path { (W.told world.new).attached ≡ (W.told world.old).attached }
    ensures disk { IsErrOf result JournalFault.Disk → Rose (W.told world.old).disk_faults (W.told world.new).disk_faults }
    ensures others { OnErr result ((result ≡ Err JournalFault.Disk) ⊎ (result ≡ Err (JournalFault.NotAJournal 0))) }
{
    if size <= 9 {
        return Ok(true);
    }
    let mut head = [0; 9];
    let count = world.read(0, &mut head)?;
    if count < 9 {
        return Err(JournalFault::NotAJournal(0));
    }
    if !is_magic(&head[..8]) {
        return Err(JournalFault::NotAJournal(0));
    }
    Ok(head[8] != 1)
}
