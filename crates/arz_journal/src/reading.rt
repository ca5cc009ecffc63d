// How the entry behind a gate is read.
ghost use Rattle.std.specs.Prelude.{◌≡◌, ◌≢◌, ◌⊎◌, ◌+◌, ◌∷◌, ◌++◌, ◌<◌, ◌≤◌, ◌^◌, ◌↔◌, List, ℕ, drop, length, Err, IfOk, IfSome, OnErr, IsErrOf, IsTrue};
ghost use Rattle.std.specs.Int.{w32, to_be_bytes};
ghost use Rattle.arz_wire.specs.Entries.{entry_spelling};
ghost use Rattle.arz_world.specs.Outside.{Rose};
ghost use Rattle.arz_journal.specs.Logs.{Looks, GateSays, IsFollowed, BlockSays};

use crate::log::JournalFault;
use arz_wire::{Entry, WireFault, decode};
use arz_world::World;
use std::alloc::Global;

// The number that four bytes spell, big-endian.
fn number_of(bytes: [u8; 4]) -> u32
    ensures { to_be_bytes w32 result ≡ bytes }
{
    u32::from_be_bytes(bytes)
}

// Reads the gate at a place and the number behind it, which says how many bytes the payload has; none where
// the gate is closed.
fn gate_at<W: World>(world: &mut W, place: u64) -> Result<Option<u32>, JournalFault>
    ensures says { IsTrue (W.told world.old).tells → place < length (W.told world.old).file → GateSays (W.told world.old).file place result }
    ensures looks { Looks (W.told world.old) (W.told world.new) }
    ensures path { (W.told world.new).attached ≡ (W.told world.old).attached }
    ensures disk { IsErrOf result JournalFault.Disk → Rose (W.told world.old).disk_faults (W.told world.new).disk_faults }
    ensures others { OnErr result ((result ≡ Err JournalFault.Disk) ⊎ (result ≡ Err (JournalFault.NotAJournal place))) }
{
    let mut head = [0; 5];
    let count = world.read(place, &mut head)?;
    if count == 0 {
        return Err(JournalFault::NotAJournal(place));
    }
    let [gate, a, b, c, d] = head;
    if gate != 1 {
        return Ok(None);
    }
    if count < 5 {
        return Err(JournalFault::NotAJournal(place));
    }
    Ok(Some(number_of([a, b, c, d])))
}

// Whether a payload of so many bytes and a gate behind it end within a file of this size.
fn is_within(size: u64, place: u64, count: u32) -> bool
    ensures { IsTrue result ↔ (place + 5 + count < size) }
{
    place < size && u64::from(count) + 5 < size - place
}

// Reads the payload of so many bytes of the block at a place, and the gate behind it. It takes no memory for
// one that the file is too short for.
fn payload_at<W: World>(
    alloc: Global,
    world: &mut W,
    place: u64,
    count: u32,
) -> Result<Vec<u8>, JournalFault>
    ensures payload { (behind : List ℕ) → IsTrue (W.told world.old).tells → drop place (W.told world.old).file ≡ 1 ∷ (to_be_bytes w32 count ++ behind)
        → IfOk result (λ bytes. IsFollowed behind bytes.items) }
    ensures short { (behind : List ℕ) → IsTrue (W.told world.old).tells → drop place (W.told world.old).file ≡ 1 ∷ (to_be_bytes w32 count ++ behind)
        → IsErrOf result (JournalFault.NotAJournal place) → length behind ≤ count }
    ensures count { IfOk result (λ bytes. length bytes.items ≡ count) }
    ensures within { IfOk result (λ bytes. place + 5 + count < 2 ^ 62) }
    ensures looks { Looks (W.told world.old) (W.told world.new) }
    ensures path { (W.told world.new).attached ≡ (W.told world.old).attached }
    ensures disk { IsErrOf result JournalFault.Disk → Rose (W.told world.old).disk_faults (W.told world.new).disk_faults }
    ensures others { OnErr result ((result ≡ Err JournalFault.Disk) ⊎ (result ≡ Err JournalFault.Memory) ⊎ (result ≡ Err (JournalFault.NotAJournal place))) }
{
    let size = world.size()?;
    if !is_within(size, place, count) {
        return Err(JournalFault::NotAJournal(place));
    }
    let count = count as usize;
    let mut bytes = vec![in alloc; 0; count + 1]?;
    let total = world.read(place + 5, &mut bytes)?;
    if total <= count {
        return Err(JournalFault::NotAJournal(place));
    }
    bytes.truncate(count);
    Ok(bytes)
}

/// Reads the entry behind the gate at a place. Gives it and the place of the gate behind it; none where the
/// gate is closed.
pub(crate) fn entry_at<W: World>(
    alloc: Global,
    world: &mut W,
    place: u64,
) -> Result<Option<(Entry, u64)>, JournalFault>
    ensures says { IsTrue (W.told world.old).tells → place < length (W.told world.old).file → BlockSays (W.told world.old).file place result }
    ensures next { IfOk result (λ found. IfSome found (λ f. f.1 ≡ place + 5 + length (entry_spelling f.0))) }
    ensures looks { Looks (W.told world.old) (W.told world.new) }
    ensures path { (W.told world.new).attached ≡ (W.told world.old).attached }
    ensures disk { IsErrOf result JournalFault.Disk → Rose (W.told world.old).disk_faults (W.told world.new).disk_faults }
    ensures others { OnErr result ((result ≡ Err JournalFault.Disk) ⊎ (result ≡ Err JournalFault.Memory) ⊎ (result ≡ Err (JournalFault.NotAJournal place))) }
{
    let Some(count) = gate_at(world, place)? else {
        return Ok(None);
    };
    let payload = payload_at(alloc, world, place, count)?;
    match decode(alloc, &payload) {
        Ok(entry) => Ok(Some((entry, place + 5 + u64::from(count)))),
        Err(WireFault::Memory) => Err(JournalFault::Memory),
        Err(_) => Err(JournalFault::NotAJournal(place)),
    }
}
