// One block of a journal: its bytes, and how it is put at a closed gate.
ghost use Rattle.std.specs.Prelude.{◌≡◌, ◌≢◌, ◌+◌, ◌≤◌, ◌<◌, ◌^◌, ◌++◌, ◌∷◌, [], length, take, nat_lt, Err, OnOk, IsTrue, true};
ghost use Rattle.arz_wire.specs.declared.entry.Entry.{Entry};
ghost use Rattle.arz_world.specs.Outside.{HasCause};
ghost use Rattle.arz_world.specs.World.{talks, Later, IsStable};
ghost use Rattle.arz_world.specs.Moments.{EachMoment};
ghost use Rattle.arz_journal.specs.Journal.{counted, payload, mark_spelling, recovered, whole, IsBeforeOrAfter};
ghost use Rattle.arz_journal.specs.Logs.{CanPut, IsPut, CanCreate, IsAt};

use arz_wire::Mark;
use arz_world::{DiskFault, World};

/// The bytes that a payload with this mark begins with, at the front of six, and how many they are.
pub(crate) fn mark_bytes(mark: Mark) -> ([u8; 6], usize)
    ensures bytes { take result.1 result.0 ≡ mark_spelling mark }
    ensures count { result.1 ≡ length (mark_spelling mark) }
    ensures few { result.1 ≤ 6 }
{
    match mark {
        Mark::Start => ([1, 0, 0, 0, 0, 0], 1),
        Mark::Begun(n) => {
            let [a, b, c, d] = n.to_be_bytes();
            ([2, a, b, c, d, 0], 5)
        }
        Mark::Held(n, closed) => {
            let [a, b, c, d] = n.to_be_bytes();
            ([3, a, b, c, d, u8::from(closed)], 6)
        }
        Mark::Served(n) => {
            let [a, b, c, d] = n.to_be_bytes();
            ([4, a, b, c, d, 0], 5)
        }
    }
}

// Writes bytes at a place of a buffer, and gives the place behind them.
fn put(buffer: &mut [u8], at: usize, bytes: &[u8]) -> usize
    requires { at + length bytes.now ≤ length buffer.old }
    ensures bytes { take (at + length bytes.now) buffer.new ≡ take at buffer.old ++ bytes.now }
    ensures end { result ≡ at + length bytes.now }
{
    let end = at + bytes.len();
    buffer[at..end].copy_from_slice(bytes);
    end
}

/// Writes what stands behind the gate of an entry to the front of a buffer: its counted payload and a closed
/// gate. Gives how many bytes these are.
pub(crate) fn fill_block(buffer: &mut [u8], mark: Mark, rest: &[u8]) -> usize
    requires room { length (payload mark rest.now) + 5 ≤ length buffer.old }
    requires small { length (payload mark rest.now) < 2 ^ 32 }
    ensures bytes { take result buffer.new ≡ counted (payload mark rest.now) ++ 0 ∷ [] }
    ensures end { result ≡ length (payload mark rest.now) + 5 }
{
    let (head, count) = mark_bytes(mark);
    let total = (count + rest.len()) as u32;
    let at = put(buffer, 0, &total.to_be_bytes());
    let at = put(buffer, at, &head[..count]);
    let at = put(buffer, at, rest);
    put(buffer, at, &[0])
}

/// The same at the front of a buffer that stays as long as it is.
pub(crate) fn fill_buffer(buffer: &mut Vec<u8>, mark: Mark, rest: &[u8]) -> usize
    requires room { length (payload mark rest.now) + 5 ≤ length buffer.old.items }
    requires small { length (payload mark rest.now) < 2 ^ 32 }
    ensures bytes { take result buffer.new.items ≡ counted (payload mark rest.now) ++ 0 ∷ [] }
    ensures end { result ≡ length (payload mark rest.now) + 5 }
    ensures same { length buffer.new.items ≡ length buffer.old.items }
{
    fill_block(buffer, mark, rest)
}

/// Whether a block with a payload of so many bytes and the gate behind it would pass the limit.
pub(crate) fn is_full(place: u64, count: u64, limit: u64) -> bool
    requires { count < 2 ^ 33 }
    ensures { result ≡ nat_lt limit (place + 5 + count + 1) }
{
    place > limit || limit - place < count + 6
}

const FIRST: [u8; 9] = [65, 82, 90, 74, 82, 78, 76, 49, 0];

/// Makes a journal of a file that gives nothing: the first bytes and a closed gate, where they are not there.
pub(crate) fn put_first<W: World>(world: &mut W) -> Result<(), DiskFault>
    ensures put { (IsTrue (W.told world.old).tells → CanCreate (W.told world.old))
        → OnOk result (IsTrue (W.told world.old).tells → IsStable (W.told world.new) × IsAt 8 true (W.told world.new).file) }
    // At each moment of it, each image gives nothing.
    ensures any_moment { (IsTrue (W.told world.old).tells → CanCreate (W.told world.old))
        → EachMoment (W.told world.old) (W.told world.new) (λ image ts. (ts ≡ talks (W.told world.old)) × (recovered image ≡ whole [])) }
    ensures time { Later (W.told world.old) (W.told world.new) }
    ensures talks { talks (W.told world.new) ≡ talks (W.told world.old) }
    ensures links { (W.told world.new).link_faults ≡ (W.told world.old).link_faults }
    ensures path { (W.told world.new).attached ≡ (W.told world.old).attached }
    ensures cause { HasCause DiskFault.Failed (W.told world.old).disk_faults (W.told world.new).disk_faults result }
    ensures no_memory { result ≢ Err DiskFault.Memory }
{
    let size = world.size()?;
    if size > 9 {
        return Ok(());
    }
    world.write(0, &FIRST)?;
    world.sync()?;
    Ok(())
}

/// Puts a block at a closed gate: the bytes behind the gate, a sync, the open gate, a sync.
pub(crate) fn put_block<W: World>(world: &mut W, place: u64, bytes: &[u8]) -> Result<(), DiskFault>
    requires place { place + 1 < 2 ^ 64 }
    requires inside { IsTrue (W.told world.old).tells → place < length (W.told world.old).file }

    ensures put { (entry : Entry) → (IsTrue (W.told world.old).tells → CanPut place bytes.now entry (W.told world.old))
        → OnOk result (IsTrue (W.told world.old).tells → IsPut place bytes.now entry (W.told world.old) (W.told world.new)) }
    // At each moment of it, each image gives what the file gave, or that and the entry.
    ensures any_moment { (entry : Entry) → (IsTrue (W.told world.old).tells → CanPut place bytes.now entry (W.told world.old))
        → EachMoment (W.told world.old) (W.told world.new) (λ image ts. (ts ≡ talks (W.told world.old)) × IsBeforeOrAfter (W.told world.old).file entry image) }
    ensures time { Later (W.told world.old) (W.told world.new) }
    ensures talks { talks (W.told world.new) ≡ talks (W.told world.old) }
    ensures links { (W.told world.new).link_faults ≡ (W.told world.old).link_faults }
    ensures path { (W.told world.new).attached ≡ (W.told world.old).attached }
    ensures cause { HasCause DiskFault.Failed (W.told world.old).disk_faults (W.told world.new).disk_faults result }
    ensures no_memory { result ≢ Err DiskFault.Memory }
{
    world.write(place + 1, bytes)?;
    world.sync()?;
    world.write(place, &[1])?;
    world.sync()?;
    Ok(())
}
