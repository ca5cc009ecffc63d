// The entries that a case appends.
ghost use Rattle.std.specs.Prelude.{◌≡◌, ◌<◌, ◌^◌, length, IfOk};
ghost use Rattle.arz_wire.specs.declared.entry.Entry.{Entry};
ghost use Rattle.arz_journal.specs.Journal.{Spells};

use arz_cases::{Case, CaseFault};
use arz_wire::{Mark, write};
use serde_json::Value;
use std::alloc::Global;

/// The most bytes behind a mark.
const MOST_BYTES: usize = 1 << 31;

/// The entries that are to be appended, as a case describes them, and how many bytes the journal may have then.
#[derive(Clone, Copy)]
pub struct Additions<'a> {
    pub case: Case<'a>,
    pub entries: &'a [Value],
    pub limit: u64,
}

impl<'a> Additions<'a> {
    /// The entries of `append`, with the `limit`.
    pub fn of(case: &Case<'a>) -> Additions<'a> {
        Additions {
            case: *case,
            entries: case.items("append"),
            limit: case.number("limit").unwrap_or(u64::MAX),
        }
    }

    /// None at all.
    pub fn none(case: &Case<'a>) -> Additions<'a> {
        Additions {
            case: *case,
            entries: &[],
            limit: 0,
        }
    }
}

/// An entry that is to be appended: its mark, and the bytes behind it.
#[derive(Drop)]
pub struct Added {
    pub mark: Mark,
    pub rest: Vec<u8>,
}

/// The entry that the case describes by its `mark`.
pub fn entry_of(alloc: Global, entry: &Case<'_>) -> Result<Added, CaseFault>
    ensures spells { IfOk result (λ added. (entry : Entry) × Spells added.mark added.rest.items entry) }
    ensures small { IfOk result (λ added. length added.rest.items < 2 ^ 31) }
{
    match entry.word("mark") {
        "start" => start(alloc, entry),
        "held" => held(alloc, entry),
        "begun" => Ok(begun(alloc, entry.count("number")?)),
        _ => Ok(served(alloc, entry.count("number")?)),
    }
}

fn begun(alloc: Global, number: u32) -> Added
    ensures spells { (entry : Entry) × Spells result.mark result.rest.items entry }
    ensures small { length result.rest.items < 2 ^ 31 }
{
    Added {
        mark: Mark::Begun(number),
        rest: Vec::new(alloc),
    }
}

fn served(alloc: Global, number: u32) -> Added
    ensures spells { (entry : Entry) × Spells result.mark result.rest.items entry }
    ensures small { length result.rest.items < 2 ^ 31 }
{
    Added {
        mark: Mark::Served(number),
        rest: Vec::new(alloc),
    }
}

fn held(alloc: Global, entry: &Case<'_>) -> Result<Added, CaseFault>
    ensures spells { IfOk result (λ added. (entry : Entry) × Spells added.mark added.rest.items entry) }
    ensures small { IfOk result (λ added. length added.rest.items < 2 ^ 31) }
{
    let number = entry.count("number")?;
    let rest = entry.bytes(alloc, "rest")?;
    if rest.len() >= MOST_BYTES {
        return Err(CaseFault::Malformed("rest"));
    }
    Ok(held_message(number, entry.flag("closed"), rest))
}

fn held_message(number: u32, closed: bool, rest: Vec<u8>) -> Added
    ensures spells { (entry : Entry) × Spells result.mark result.rest.items entry }
    ensures same { result.rest ≡ rest }
{
    let mark = Mark::Held(number, closed);
    Added { mark, rest }
}

// The wire form of the JSON text `document` stands behind the mark.
fn start(alloc: Global, entry: &Case<'_>) -> Result<Added, CaseFault>
    ensures spells { IfOk result (λ added. (entry : Entry) × Spells added.mark added.rest.items entry) }
    ensures small { IfOk result (λ added. length added.rest.items < 2 ^ 31) }
{
    let tree = entry.json(alloc, "document")?;
    let rest = write(alloc, &tree)?.into_std();
    if rest.len() >= MOST_BYTES {
        return Err(CaseFault::Malformed("document"));
    }
    Ok(Added {
        mark: Mark::Start,
        rest,
    })
}
