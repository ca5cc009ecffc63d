//! What is printed of a journal's file.

ghost use Rattle.std.specs.Prelude.{◌≡◌, ◌++◌, ℕ, Err, IfOk, OnOk, IsTrue, true, false, codes};
ghost use Rattle.arz_journal.specs.Logs.{Ready};
ghost use Rattle.arz_probe.specs.Reports.{line, good, placed};
ghost use Rattle.arz_probe.specs.Journals.{flag_text, entry_text, journal_form, Listed, IsBrokenAt};

use crate::report::Report;
use arz_journal::{JournalFault, Log};
use arz_json::{Bytes, Many};
use arz_wire::{Entry, tree_length};
use arz_world::{MemoryWorld, World};
use std::alloc::{AllocError, Global};

// The status where a file is no journal.
const NOT_A_JOURNAL: u8 = 12;

/// A line for each entry that a journal's file gives, in order, and one with the place of the closed gate behind
/// them; or, with status 12, the place from which on it is no journal; or `nothing` where it gives nothing.
pub fn journal_report(alloc: Global, file: Vec<u8>) -> Result<Report, AllocError>
    ensures { IfOk result (λ r. r ≡ journal_form file.items) }
{
    let file = Bytes::from_std(file);
    let (peers, failing) = (Many::new(alloc), Many::new(alloc));
    let mut world = MemoryWorld::new(alloc, file, peers, failing, None)?;
    world_report(alloc, &mut world)
}

// The same of the file of a world.
fn world_report<W: World>(alloc: Global, world: &mut W) -> Result<Report, AllocError>
    requires { IsTrue (W.told world.old).tells }
    ensures { IfOk result (λ r. r ≡ journal_form (W.told world.old).file) }
{
    let mut log = match Log::attach(alloc, world, "") {
        Ok(log) => log,
        Err(JournalFault::NotAJournal(at)) => return closing(
            Vec::new(alloc),
            b"not a journal",
            at,
            NOT_A_JOURNAL,
        ),
        Err(_) => return Err(AllocError),
    };
    if log.is_new() {
        return nothing(alloc);
    }
    let mut text = Vec::new(alloc);
    match add_entries(&mut log, world, &mut text) {
        Ok(()) => closing(text, b"closed gate", log.place(), 0),
        Err(JournalFault::NotAJournal(at)) => closing(text, b"not a journal", at, NOT_A_JOURNAL),
        Err(_) => Err(AllocError),
    }
}

// Adds a line for each entry ahead of a log, up to its end or to where it is no journal.
fn add_entries<W: World>(
    log: &mut Log,
    world: &mut W,
    text: &mut Vec<u8>,
) -> Result<(), JournalFault>
    requires told { IsTrue (W.told world.old).tells }
    requires ready { Ready log.old (W.told world.old) }
    requires live { log.old.is_spent ≡ false }
    requires opened { log.old.is_open ≡ true }
    ensures ended { OnOk result (Listed text.old.items (W.told world.old).file log.old.place text.new.items log.new.place) }
    ensures broken { (at : ℕ) → result ≡ Err (JournalFault.NotAJournal at) → IsBrokenAt text.old.items (W.told world.old).file log.old.place text.new.items at }
{
    'entries: while let Some(entry) = log.next(world)? {
        add_entry(text, entry)?;
    }
    Ok(())
}

fn add_entry(text: &mut Vec<u8>, entry: Entry) -> Result<(), AllocError>
    ensures { OnOk result (text.new.items ≡ text.old.items ++ line (entry_text entry)) }
{
    match entry {
        Entry::Start(tree) => {
            let Some(count) = tree_length(&tree) else {
                return Err(AllocError);
            };
            add_placed(text, b"start", count)?;
        }
        Entry::Begun(number) => add_placed(text, b"begun", u64::from(number))?,
        Entry::Held(number, closed, message) => {
            add_placed(text, b"held", u64::from(number))?;
            text.push(b' ')?;
            add_placed(text, flag(closed), message.as_slice().len() as u64)?;
        }
        Entry::Served(number) => add_placed(text, b"served", u64::from(number))?,
    }
    text.push(b'\n')?;
    Ok(())
}

/// A flag in words.
pub fn flag(flag: bool) -> &'static [u8]
    ensures { result.now ≡ flag_text flag }
{
    if flag { b"true" } else { b"false" }
}

// Adds a word, a space and a number.
fn add_placed(text: &mut Vec<u8>, word: &[u8], number: u64) -> Result<(), AllocError>
    ensures { OnOk result (text.new.items ≡ text.old.items ++ placed word.now number) }
{
    let mut digits = itoa::Buffer::new();
    text.extend_from_slice(word)?;
    text.push(b' ')?;
    text.extend_from_slice(digits.format(number).as_bytes())?;
    Ok(())
}

fn nothing(alloc: Global) -> Result<Report, AllocError>
    ensures { IfOk result (λ r. r ≡ good (codes "nothing")) }
{
    let text = Bytes::from_std(Vec::from_slice(alloc, b"nothing\n")?);
    Ok(Report { text, status: 0 })
}

// The report with this last line.
fn closing(text: Vec<u8>, word: &[u8], at: u64, status: u8) -> Result<Report, AllocError>
    ensures { IfOk result (λ r. r ≡ record { text = text.items ++ line (placed word.now at); status = status }) }
{
    let mut text = text;
    add_placed(&mut text, word, at)?;
    text.push(b'\n')?;
    let text = Bytes::from_std(text);
    Ok(Report { text, status })
}
