// Journals over a world in memory.
ghost use Rattle.std.specs.Prelude.{◌≡◌, Ok, OnOk, true, false};
ghost use Rattle.arz_journal.specs.Logs.{Ready};

use crate::added::{Additions, entry_of};
use crate::wires::entry_words;
use arz_cases::{Case, CaseFault, Outcome};
use arz_journal::{JournalFault, Log};
use arz_json::{Bytes, Many};
use arz_wire::Entry;
use arz_world::{MemoryWorld, Torn, World};
use serde_json::Value;
use std::alloc::{AllocError, Global};

/// More entries than a case's file has.
const MANY_ENTRIES: u32 = 1_000;

/// A journal in the file of the bytes `file`, of whose world the calls in `failing` fail and all past `fuse`:
/// whether it is new, and then made where something is to be appended, or its entries up to its end or to a
/// fault, behind which the log is read once more. Then what each of `append` came to, with the `limit`; and
/// where `torn` says what a crash makes of the bytes that were not synced, what it leaves, read in the same
/// way. With `bytes` the file that it leaves is told in hexadecimal digits.
pub fn journal(alloc: Global, case: &Case<'_>) -> Result<Outcome, CaseFault> {
    let mut world = world_of(alloc, case)?;
    let mut text = String::new(alloc);
    tell(alloc, &Additions::of(case), &mut world, &mut text)?;
    if world.refused() > 0 {
        return Err(CaseFault::Memory);
    }
    if let Some(torn) = torn_of(case)? {
        tell_left(alloc, case, world.crash(torn)?, &mut text)?;
    }
    Ok(Outcome::text(text))
}

fn world_of(alloc: Global, case: &Case<'_>) -> Result<MemoryWorld, CaseFault> {
    let file = Bytes::from_std(case.bytes(alloc, "file")?);
    let failing = Many::from_std(case.numbers(alloc, "failing")?);
    let fuse = fuse_of(case)?;
    Ok(MemoryWorld::new(alloc, file, Many::new(alloc), failing, fuse)?)
}

fn fuse_of(case: &Case<'_>) -> Result<Option<u32>, CaseFault> {
    match case.member("fuse") {
        Some(_) => Ok(Some(case.count("fuse")?)),
        None => Ok(None),
    }
}

fn torn_of(case: &Case<'_>) -> Result<Option<Torn>, CaseFault> {
    match case.member("torn") {
        None => Ok(None),
        Some(Value::String(word)) if word.as_str() == "old" => Ok(Some(Torn::Old)),
        Some(Value::String(word)) if word.as_str() == "new" => Ok(Some(Torn::New)),
        Some(fill) => Ok(Some(Torn::Fill(byte_of(fill)?))),
    }
}

fn byte_of(fill: &Value) -> Result<u8, CaseFault> {
    let byte = fill.as_u64().and_then(|n| u8::try_from(n).ok());
    byte.ok_or(CaseFault::Malformed("torn"))
}

// What a crash left.
fn tell_left(
    alloc: Global,
    case: &Case<'_>,
    image: Bytes,
    text: &mut String,
) -> Result<(), CaseFault> {
    add_line(text, "left")?;
    if case.flag("bytes") {
        add_line(text, hex::encode(alloc, image.as_slice())?.as_str())?;
    }
    let mut world = MemoryWorld::new(alloc, image, Many::new(alloc), Many::new(alloc), None)?;
    tell(alloc, &Additions::none(case), &mut world, text)
}

// What is read of the world's file, and what appending these to it comes to.
fn tell<W: World>(
    alloc: Global,
    added: &Additions<'_>,
    world: &mut W,
    text: &mut String,
) -> Result<(), CaseFault> {
    let mut log = match Log::attach(alloc, world, "journal") {
        Ok(log) => log,
        Err(fault) => return add_fault(alloc, text, fault),
    };
    if log.is_new() {
        tell_new(alloc, added, &mut log, world, text)
    } else {
        tell_open(alloc, added, &mut log, world, text)
    }
}

fn tell_new<W: World>(
    alloc: Global,
    added: &Additions<'_>,
    log: &mut Log,
    world: &mut W,
    text: &mut String,
) -> Result<(), CaseFault>
    requires ready { Ready log.old (W.told world.old) }
    requires unopened { log.old.is_open ≡ false }
{
    add_line(text, "new")?;
    if added.entries.is_empty() {
        return Ok(());
    }
    match log.create(world) {
        Ok(()) => append_all(alloc, added, log, world, text),
        Err(fault) => add_fault(alloc, text, fault),
    }
}

fn tell_open<W: World>(
    alloc: Global,
    added: &Additions<'_>,
    log: &mut Log,
    world: &mut W,
    text: &mut String,
) -> Result<(), CaseFault>
    requires ready { Ready log.old (W.told world.old) }
    requires opened { log.old.is_open ≡ true }
{
    add_line(text, "open")?;
    if read_all(alloc, log, world, text)? {
        append_all(alloc, added, log, world, text)
    } else {
        read_again(alloc, log, world, text)
    }
}

// The entries of a log, up to its end or to a fault. Whether it came to its end.
fn read_all<W: World>(
    alloc: Global,
    log: &mut Log,
    world: &mut W,
    text: &mut String,
) -> Result<bool, CaseFault>
    requires ready { Ready log.old (W.told world.old) }
    requires opened { log.old.is_open ≡ true }
    ensures ready { OnOk result (Ready log.new (W.told world.new)) }
    ensures opened { OnOk result (log.new.is_open ≡ true) }
    ensures ended { result ≡ Ok true → log.new.is_ended ≡ true }
{
    'entries: for _ in 0..MANY_ENTRIES {
        match read_one(alloc, log, world, text)? {
            Came::Entry => {}
            Came::End => return Ok(true),
            Came::Fault => return Ok(false),
        }
    }
    Err(CaseFault::Malformed("too many entries"))
}

// What was read of a log.
#[derive(Clone, Copy)]
enum Came {
    Entry,
    End,
    Fault,
}

fn read_one<W: World>(
    alloc: Global,
    log: &mut Log,
    world: &mut W,
    text: &mut String,
) -> Result<Came, CaseFault>
    requires ready { Ready log.old (W.told world.old) }
    requires opened { log.old.is_open ≡ true }
    ensures ready { Ready log.new (W.told world.new) }
    ensures opened { log.new.is_open ≡ true }
    ensures ended { result ≡ Ok Came.End → log.new.is_ended ≡ true }
{
    match log.next(world) {
        Ok(Some(entry)) => {
            add_entry(alloc, text, &entry)?;
            Ok(Came::Entry)
        }
        Ok(None) => {
            add_line(text, "end")?;
            Ok(Came::End)
        }
        Err(fault) => {
            add_fault(alloc, text, fault)?;
            Ok(Came::Fault)
        }
    }
}

// What one more read comes to.
fn read_again<W: World>(
    alloc: Global,
    log: &mut Log,
    world: &mut W,
    text: &mut String,
) -> Result<(), CaseFault>
    requires ready { Ready log.old (W.told world.old) }
    requires opened { log.old.is_open ≡ true }
{
    match log.next(world) {
        Ok(_) => Ok(add_line(text, "goes on")?),
        Err(fault) => add_fault(alloc, text, fault),
    }
}

fn append_all<W: World>(
    alloc: Global,
    added: &Additions<'_>,
    log: &mut Log,
    world: &mut W,
    text: &mut String,
) -> Result<(), CaseFault>
    requires ready { Ready log.old (W.told world.old) }
    requires opened { log.old.is_open ≡ true }
    requires ended { log.old.is_ended ≡ true }
{
    for entry in added.entries {
        let entry = added.case.inner(entry);
        append_one(alloc, &entry, added.limit, log, world, text)?;
    }
    Ok(())
}

fn append_one<W: World>(
    alloc: Global,
    entry: &Case<'_>,
    limit: u64,
    log: &mut Log,
    world: &mut W,
    text: &mut String,
) -> Result<(), CaseFault>
    requires ready { Ready log.old (W.told world.old) }
    requires opened { log.old.is_open ≡ true }
    requires ended { log.old.is_ended ≡ true }
    ensures ready { Ready log.new (W.told world.new) }
    ensures opened { log.new.is_open ≡ true }
    ensures ended { log.new.is_ended ≡ true }
{
    let entry = entry_of(alloc, entry)?;
    log.reserve(entry.rest.len() as u64 + 11)?;
    match log.append(world, entry.mark, &entry.rest, limit) {
        Ok(()) => Ok(add_line(text, "added")?),
        Err(fault) => add_fault(alloc, text, fault),
    }
}

fn add_entry(alloc: Global, text: &mut String, entry: &Entry) -> Result<(), CaseFault> {
    let words = entry_words(alloc, entry)?;
    Ok(add_line(text, words.as_str())?)
}

fn add_fault(alloc: Global, text: &mut String, fault: JournalFault) -> Result<(), CaseFault> {
    match fault {
        JournalFault::Disk => add_line(text, "Disk")?,
        JournalFault::NotAJournal(at) => add_broken(alloc, text, at)?,
        JournalFault::Full => add_line(text, "Full")?,
        JournalFault::Spent => add_line(text, "Spent")?,
        JournalFault::Memory => return Err(CaseFault::Memory),
    }
    Ok(())
}

fn add_broken(alloc: Global, text: &mut String, at: u64) -> Result<(), AllocError> {
    let words = format!(in alloc; "NotAJournal {at}")?;
    add_line(text, words.as_str())
}

fn add_line(text: &mut String, words: &str) -> Result<(), AllocError> {
    text.push_str(words)?;
    text.push_str("\n")
}
