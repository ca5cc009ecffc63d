// The wire form of trees and of journal entries.
ghost use Rattle.arz_json.specs.Tree.{IsWellFormed};

use arz_cases::{Case, CaseFault, Outcome, brief, flag_word};
use arz_json::{Bytes, CompactFault, Json, compact_string};
use arz_wire::{Entry, WireFault, decode as decode_entry, read, write};
use std::alloc::{AllocError, Global};

/// The wire form of the JSON text `document`, in hexadecimal digits.
pub fn wire(alloc: Global, case: &Case<'_>) -> Result<Outcome, CaseFault> {
    let tree = case.json(alloc, "document")?;
    Ok(Outcome::text(digits(alloc, &tree)?))
}

// The wire form in hexadecimal digits.
fn digits(alloc: Global, tree: &Json) -> Result<String, AllocError>
    requires { IsWellFormed tree.now }
{
    let bytes = write(alloc, tree)?;
    hex::encode(alloc, bytes.as_slice())
}

/// The tree whose wire form stands at the front of `bytes`: its compact text, or its wire form again
/// where it has none, and how many bytes were taken.
pub fn unwire(alloc: Global, case: &Case<'_>) -> Result<Outcome, CaseFault> {
    let bytes = case.bytes(alloc, "bytes")?;
    match read(alloc, &bytes) {
        Ok((tree, taken)) => Ok(Outcome::text(counted(alloc, &tree, taken)?)),
        Err(fault) => Ok(Outcome::text(fault_words(alloc, fault)?)),
    }
}

fn counted(alloc: Global, tree: &Json, taken: usize) -> Result<String, CaseFault>
    requires { IsWellFormed tree.now }
{
    let text = told(alloc, tree)?;
    Ok(format!(in alloc; "{text} {taken}")?)
}

fn told(alloc: Global, tree: &Json) -> Result<String, CaseFault>
    requires { IsWellFormed tree.now }
{
    match compact_string(alloc, tree) {
        Ok(text) => Ok(text),
        Err(CompactFault::FractionUsed) => Ok(digits(alloc, tree)?),
        Err(CompactFault::Memory) => Err(CaseFault::Memory),
    }
}

/// The journal entry that `bytes` are.
pub fn decode(alloc: Global, case: &Case<'_>) -> Result<Outcome, CaseFault> {
    let bytes = case.bytes(alloc, "bytes")?;
    match decode_entry(alloc, &bytes) {
        Ok(entry) => Ok(Outcome::text(entry_words(alloc, &entry)?)),
        Err(fault) => Ok(Outcome::text(fault_words(alloc, fault)?)),
    }
}

/// An entry in words.
pub fn entry_words(alloc: Global, entry: &Entry) -> Result<String, AllocError> {
    match entry {
        Entry::Start(tree) => start_words(alloc, tree),
        Entry::Begun(number) => format!(in alloc; "Begun {number}"),
        Entry::Held(number, closed, message) => held_words(alloc, *number, *closed, message),
        Entry::Served(number) => format!(in alloc; "Served {number}"),
    }
}

fn start_words(alloc: Global, tree: &Json) -> Result<String, AllocError> {
    let words = brief(alloc, tree)?;
    format!(in alloc; "Start {words}")
}

fn held_words(
    alloc: Global,
    number: u32,
    closed: bool,
    message: &Bytes,
) -> Result<String, AllocError> {
    let digits = hex::encode(alloc, message.as_slice())?;
    let closed = flag_word(closed);
    format!(in alloc; "Held {number} {closed} {digits}")
}

fn fault_words(alloc: Global, fault: WireFault) -> Result<String, CaseFault> {
    match fault {
        WireFault::Short => Ok(String::from_str(alloc, "Short")?),
        WireFault::BadTag(at) => Ok(placed(alloc, "BadTag", at)?),
        WireFault::NotCanonical(at) => Ok(placed(alloc, "NotCanonical", at)?),
        WireFault::TooDeep(at) => Ok(placed(alloc, "TooDeep", at)?),
        WireFault::Memory => Err(CaseFault::Memory),
    }
}

fn placed(alloc: Global, kind: &str, at: u64) -> Result<String, AllocError> {
    format!(in alloc; "{kind} {at}")
}
