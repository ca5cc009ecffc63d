// A log.
ghost use Rattle.std.specs.Prelude.{◌≡◌, ◌≢◌, ◌⊎◌, ◌↔◌, ◌+◌, ◌≤◌, ◌<◌, ◌^◌, ◌++◌, ◌∷◌, [], not, ℕ, Ok, Err, length, IfOk, OnOk, OnErr, IsTrue, true, false};
ghost use Rattle.arz_wire.specs.declared.entry.Entry.{Entry};
ghost use Rattle.arz_wire.specs.Entries.{entry_spelling};
ghost use Rattle.arz_world.specs.Outside.{Rose};
ghost use Rattle.arz_world.specs.World.{talks, Later};
ghost use Rattle.arz_world.specs.Moments.{EachMoment};
ghost use Rattle.arz_journal.specs.Journal.{recovered, whole, ahead, payload, Spells, IsBeforeOrAfter};
ghost use Rattle.arz_journal.specs.Logs.{LogView, Ready, Stands, Looks, ReadsNext};
ghost use Rattle.std.specs.declared.option.Option.TheVariants.{None, Some};

use crate::attach::{barrier, first_gate};
use crate::block::{fill_buffer, is_full, mark_bytes, put_block, put_first};
use crate::reading::entry_at;
use arz_wire::{Entry, Mark};
use arz_world::{DiskFault, World};
use std::alloc::{AllocError, Global};
use std::marker::Model;
use thiserror::Error;

/// Why a call of a log was not done.
#[derive(Clone, Copy, Debug, PartialEq, Eq, Error)]
pub enum JournalFault {
    /// The disk failed. The count of its failures has risen. The log must be attached anew.
    #[error("the disk failed")]
    Disk,
    /// At this place of the file, in bytes, stands no entry of a journal.
    #[error("not a journal at {0}")]
    NotAJournal(u64),
    /// The journal would pass its limit. Nothing was written.
    #[error("the journal is full")]
    Full,
    /// An earlier call on this log answered Disk: it must be attached anew.
    #[error("the log must be attached anew")]
    Spent,
    /// Memory ran out.
    #[error("out of memory")]
    Memory,
}

impl From<DiskFault> for JournalFault {
    ghost use Rattle.arz_journal.specs.Logs.{of_disk};

    ghost from_gives = { λ f e. e ≡ of_disk f };

    fn from(fault: DiskFault) -> Self {
        match fault {
            DiskFault::Failed => JournalFault::Disk,
            DiskFault::Memory => JournalFault::Memory,
        }
    }
}

impl From<AllocError> for JournalFault {
    ghost use Rattle.arz_journal.specs.declared.log.JournalFault.TheVariants.{Memory};

    ghost from_gives = { λ _ e. e ≡ Memory };

    fn from(_: AllocError) -> Self {
        JournalFault::Memory
    }
}

/// A log of entries in the file of a world. It keeps its place in the file, and none of its entries. Contracts
/// see it as a `LogView`.
#[derive(Drop)]
pub struct Log {
    alloc: Global,
    place: u64,
    buffer: Vec<u8>,
    is_new: bool,
    is_open: bool,
    is_ended: bool,
    is_spent: bool,
}

impl Model for Log {
    ghost use Rattle.std.specs.Prelude.{length};
    ghost use Rattle.arz_journal.specs.Logs.{LogView};

    ghost Value = { LogView };

    ghost view = { λ l. record {
      place = l.place;
      room = length l.buffer.items;
      is_new = l.is_new;
      is_open = l.is_open;
      is_ended = l.is_ended;
      is_spent = l.is_spent;
    } };
}

impl Log {
    /// A log of the file at a path: attaches it, syncs it as a barrier, so that what is read stays, and reads
    /// its length, its first eight bytes and its first gate. `NotAJournal(0)` comes exactly where the file has
    /// more than nine bytes and begins otherwise.
    pub fn attach<W: World>(alloc: Global, world: &mut W, path: &str) -> Result<Log, JournalFault>
        ensures stands { IfOk result (λ log. IsTrue (W.told world.old).tells → Stands log (W.told world.new)) }
        ensures log { IfOk result (λ log. log ≡ record { place = 8; room = 0; is_new = log.is_new; is_open = not log.is_new; is_ended = false; is_spent = false }) }
        ensures nothing { IfOk result (λ log. IsTrue (W.told world.old).tells → log.is_new ≡ true → recovered (W.told world.new).file ≡ whole []) }
        ensures entries { IfOk result (λ log. IsTrue (W.told world.old).tells → log.is_new ≡ false
            → (recovered (W.told world.new).file ≡ ahead (W.told world.new).file 8) × (recovered (W.told world.new).file ≢ whole [])) }
        ensures other { (at : ℕ) → result ≡ Err (JournalFault.NotAJournal at) → (at ≡ 0)
            × (IsTrue (W.told world.old).tells → recovered (W.told world.new).file ≡ record { entries = []; broken = Some 0 }) }

        // At each moment of it, each image is one of those of the beginning.
        ensures looks { Looks (W.told world.old) (W.told world.new) }
        ensures path { OnOk result (IsTrue (W.told world.old).tells → (W.told world.new).attached ≡ path.now) }
        ensures disk { result ≡ Err JournalFault.Disk → Rose (W.told world.old).disk_faults (W.told world.new).disk_faults }
        ensures not_full { result ≢ Err JournalFault.Full }
        ensures not_spent { result ≢ Err JournalFault.Spent }
    {
        let size = barrier(world, path)?;
        let is_new = first_gate(world, size)?;
        Ok(Log {
            alloc,
            place: 8,
            buffer: Vec::new(alloc),
            is_new,
            is_open: !is_new,
            is_ended: false,
            is_spent: false,
        })
    }

    /// Whether the file gave no entry when the log was attached, and is a journal or can become one.
    pub fn is_new(&self) -> bool
        ensures { result ≡ self.now.is_new }
    {
        self.is_new
    }

    /// The place of the log's gate in the file, in bytes. At its end that gate is closed.
    pub fn place(&self) -> u64
        ensures { result ≡ self.now.place }
    {
        self.place
    }

    /// The next entry, in the order in which they were added; none where the log's gate is closed, and then the
    /// log is at its end. Before the first call on a log that is not new every entry of the file is ahead of it.
    /// It takes the memory of one entry, and none for a payload that the file is too short for. `NotAJournal` comes
    /// where the gate is open, and the number behind it, the payload or the next gate is not in the file, or the
    /// payload is no entry's. After `Disk` the log must be attached anew, and after any other fault it is as before.
    pub fn next<W: World>(&mut self, world: &mut W) -> Result<Option<Entry>, JournalFault>
        requires ready { Ready self.old (W.told world.old) }
        requires opened { self.old.is_spent ≡ false → self.old.is_open ≡ true }

        ensures reads { self.old.is_spent ≡ false → IsTrue (W.told world.old).tells → ReadsNext (W.told world.old).file self.old.place self.new.place result }
        ensures ready { Ready self.new (W.told world.new) }

        // At each moment of it, each image is one of those of the beginning.
        ensures looks { Looks (W.told world.old) (W.told world.new) }
        ensures path { (W.told world.new).attached ≡ (W.told world.old).attached }
        ensures ended { self.old.is_spent ≡ false → self.old.is_ended ≡ true → (result ≡ Ok None) × (world.new ≡ world.old) }

        ensures disk { result ≡ Err JournalFault.Disk → Rose (W.told world.old).disk_faults (W.told world.new).disk_faults }
        ensures spent { result ≡ Err JournalFault.Spent ↔ (self.old.is_spent ≡ true) }
        ensures untouched { result ≡ Err JournalFault.Spent → world.new ≡ world.old }
        ensures not_full { result ≢ Err JournalFault.Full }
        ensures broken { (at : ℕ) → result ≡ Err (JournalFault.NotAJournal at) → at ≡ self.old.place }

        // The log goes on behind the entry, is at its end, or is spent.
        ensures entry { (entry : Entry) → result ≡ Ok (Some entry) → self.new ≡ record self.old { place = self.old.place + 5 + length (entry_spelling entry) } }
        ensures end { result ≡ Ok None → self.new ≡ record self.old { is_ended = true } }
        ensures err { OnErr result (result ≢ Err JournalFault.Disk → self.new ≡ self.old) }
        ensures err_disk { result ≡ Err JournalFault.Disk → self.new ≡ record self.old { is_spent = true } }
    {
        if self.is_spent {
            return Err(JournalFault::Spent);
        }
        if self.is_ended {
            return Ok(None);
        }
        match entry_at(self.alloc, world, self.place) {
            Ok(Some((entry, place))) => {
                self.place = place;
                Ok(Some(entry))
            }
            Ok(None) => {
                self.is_ended = true;
                Ok(None)
            }
            Err(JournalFault::Disk) => {
                self.is_spent = true;
                Err(JournalFault::Disk)
            }
            Err(fault) => Err(fault),
        }
    }

    /// Makes room for blocks of this many bytes: a block has five bytes more than its payload.
    pub fn reserve(&mut self, room: u64) -> Result<(), AllocError>
        ensures room { OnOk result (room ≤ self.new.room) }
        ensures more { self.old.room ≤ self.new.room }
        ensures same { self.new ≡ record self.old { room = self.new.room } }
    {
        if (self.buffer.len() as u64) < room {
            self.buffer.resize(room as usize, 0)?;
        }
        Ok(())
    }

    /// Makes a journal of a file that gave nothing: writes its first nine bytes, where they are not there. At
    /// each moment of the call whatever a crash leaves gives nothing. It takes no memory. Then the log is at
    /// its end. After `Disk` it must be attached anew.
    pub fn create<W: World>(&mut self, world: &mut W) -> Result<(), JournalFault>
        requires ready { Ready self.old (W.told world.old) }
        requires unopened { self.old.is_spent ≡ false → self.old.is_open ≡ false }

        ensures any_moment { self.old.is_spent ≡ false
            → EachMoment (W.told world.old) (W.told world.new) (λ image ts. (ts ≡ talks (W.told world.old)) × (recovered image ≡ whole [])) }
        ensures ready { Ready self.new (W.told world.new) }
        ensures time { Later (W.told world.old) (W.told world.new) }
        ensures talks { talks (W.told world.new) ≡ talks (W.told world.old) }
        ensures links { (W.told world.new).link_faults ≡ (W.told world.old).link_faults }
        ensures path { (W.told world.new).attached ≡ (W.told world.old).attached }

        ensures disk { result ≡ Err JournalFault.Disk → Rose (W.told world.old).disk_faults (W.told world.new).disk_faults }
        ensures spent { result ≡ Err JournalFault.Spent ↔ (self.old.is_spent ≡ true) }
        ensures others { OnErr result ((result ≡ Err JournalFault.Disk) ⊎ (result ≡ Err JournalFault.Spent)) }
        ensures untouched { result ≡ Err JournalFault.Spent → (world.new ≡ world.old) × (self.new ≡ self.old) }

        // The log is at its end, or spent.
        ensures ok { OnOk result (self.new ≡ record self.old { place = 8; is_open = true; is_ended = true }) }
        ensures err { result ≡ Err JournalFault.Disk → self.new ≡ record self.old { is_spent = true } }
    {
        if self.is_spent {
            return Err(JournalFault::Spent);
        }
        self.is_spent = true;
        put_first(world)?;
        self.place = 8;
        self.is_open = true;
        self.is_ended = true;
        self.is_spent = false;
        Ok(())
    }

    /// Adds the entry that the mark and the bytes behind it spell. At each moment of the call whatever a crash
    /// leaves gives the entries from before it, or those and this one; once it answered `Ok`, every crash
    /// leaves a file that gives this one too. It takes no memory. The journal with the block and the gate
    /// behind it may have at most `limit` bytes. After `Disk` the log must be attached anew.
    pub fn append<W: World>(
        &mut self,
        world: &mut W,
        mark: Mark,
        rest: &[u8],
        limit: u64,
    ) -> Result<(), JournalFault>
        requires ready { Ready self.old (W.told world.old) }
        requires ended { self.old.is_spent ≡ false → (self.old.is_open ≡ true) × (self.old.is_ended ≡ true) }
        requires room { self.old.is_spent ≡ false → length (payload mark rest.now) + 5 ≤ self.old.room }
        requires small { length (payload mark rest.now) < 2 ^ 32 }
        requires spells { (entry : Entry) × Spells mark rest.now entry }

        ensures kept { (entry : Entry) → Spells mark rest.now entry → OnOk result (IsTrue (W.told world.old).tells
            → recovered (W.told world.new).file ≡ whole ((recovered (W.told world.old).file).entries ++ entry ∷ [])) }
        ensures any_moment { (entry : Entry) → Spells mark rest.now entry → self.old.is_spent ≡ false
            → EachMoment (W.told world.old) (W.told world.new) (λ image ts. (ts ≡ talks (W.told world.old)) × IsBeforeOrAfter (W.told world.old).file entry image) }
        ensures ready { Ready self.new (W.told world.new) }
        ensures time { Later (W.told world.old) (W.told world.new) }
        ensures talks { talks (W.told world.new) ≡ talks (W.told world.old) }
        ensures links { (W.told world.new).link_faults ≡ (W.told world.old).link_faults }
        ensures path { (W.told world.new).attached ≡ (W.told world.old).attached }

        ensures disk { result ≡ Err JournalFault.Disk → Rose (W.told world.old).disk_faults (W.told world.new).disk_faults }
        ensures full { result ≡ Err JournalFault.Full ↔ ((self.old.is_spent ≡ false) × (limit < self.old.place + 5 + length (payload mark rest.now) + 1)) }
        ensures spent { result ≡ Err JournalFault.Spent ↔ (self.old.is_spent ≡ true) }
        ensures others { OnErr result ((result ≡ Err JournalFault.Disk) ⊎ (result ≡ Err JournalFault.Full) ⊎ (result ≡ Err JournalFault.Spent)) }
        ensures untouched { ((result ≡ Err JournalFault.Full) ⊎ (result ≡ Err JournalFault.Spent)) → (world.new ≡ world.old) × (self.new ≡ self.old) }

        // The log goes on behind the entry, or is spent.
        ensures ok { OnOk result (self.new ≡ record self.old { place = self.old.place + 5 + length (payload mark rest.now) }) }
        ensures err { result ≡ Err JournalFault.Disk → self.new ≡ record self.old { is_spent = true } }
    {
        if self.is_spent {
            return Err(JournalFault::Spent);
        }
        let (_, count) = mark_bytes(mark);
        if is_full(self.place, (count + rest.len()) as u64, limit) {
            return Err(JournalFault::Full);
        }
        self.is_spent = true;
        let end = fill_buffer(&mut self.buffer, mark, rest);
        put_block(world, self.place, &self.buffer[..end])?;
        self.place += end as u64;
        self.is_spent = false;
        Ok(())
    }
}
