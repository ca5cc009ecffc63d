//! Entries of a journal, and the bytes that hold them.

ghost use Rattle.std.specs.Prelude.{◌≡◌, ◌<◌, ◌^◌, length, Ok, IfOk};
ghost use Rattle.arz_json.specs.Answer.{Gives};
ghost use Rattle.arz_wire.specs.Reading.{told};
ghost use Rattle.arz_wire.specs.declared.entry.Entry.{Entry};
ghost use Rattle.arz_wire.specs.Entries.{IsSound, IsEntry, entry_spelling, number_at_front, closed_at, end_at, entry_of};

use crate::fault::WireFault;
use crate::items::place;
use crate::reading::{MAX_LEVELS, tree_of};
use arz_json::{Bytes, Json};
use std::alloc::Global;

/// What an entry tells, without the tree or the message that it holds.
#[derive(Clone, Copy, Debug, PartialEq, Eq)]
pub enum Mark {
    /// The bundle that the journal begins with.
    Start,
    /// The ask of this number was begun.
    Begun(u32),
    /// The ask of this number has its reply; whether the end of the connection ended its body.
    Held(u32, bool),
    /// The wait of this number was served.
    Served(u32),
}

/// An entry of a journal.
#[derive(Debug, Drop)]
pub enum Entry {
    /// The bundle that the journal begins with, as a tree.
    Start(Json),
    /// The ask of this number was begun.
    Begun(u32),
    /// The ask of this number has its reply: whether the end of the connection ended its body, and the
    /// bytes of the message.
    Held(u32, bool, Bytes),
    /// The wait of this number was served.
    Served(u32),
}

/// The entry that a payload spells, all of its bytes. A place of a fault counts from the payload's first
/// byte, inside its tree too; bytes that are left over are `NotCanonical` at the first of them.
pub fn decode(alloc: Global, payload: &[u8]) -> Result<Entry, WireFault>
    // What is read is spelled so.
    ensures spelt { IfOk result (λ e. payload.now ≡ entry_spelling e) }
    ensures sound { IfOk result IsSound }
    // What is spelled so is read, unless memory runs out.
    ensures only { (e : Entry) → IsEntry e → payload.now ≡ entry_spelling e → Gives (λ r. r) told result (Ok e) }
    // Which fault it is, and that nothing else is one.
    ensures exact { Gives (λ e. e) told result (entry_of payload.now) }
{
    entry_in(alloc, payload)
}

#[tactic(auto, unfolding(crate::specs::Entries::entry_of))]
fn entry_in(alloc: Global, payload: &[u8]) -> Result<Entry, WireFault>
    ensures exact { Gives (λ e. e) told result (entry_of payload.now) }
    ensures room { length payload.now < 2 ^ 64 }
{
    let total = payload.len();
    match payload {
        [] => Err(WireFault::Short),
        [1, rest @ ..] => {
            let (tree, after) = tree_of(alloc, total, MAX_LEVELS, rest)?;
            ended(total, after)?;
            Ok(Entry::Start(tree))
        }
        [2, rest @ ..] => {
            let (number, after) = u32_front(rest)?;
            ended(total, after)?;
            Ok(Entry::Begun(number))
        }
        [3, rest @ ..] => {
            let (number, after) = u32_front(rest)?;
            let (closed, message) = closed_front(total, after)?;
            let message = Vec::from_slice(alloc, message)?;
            Ok(Entry::Held(number, closed, Bytes::from_std(message)))
        }
        [4, rest @ ..] => {
            let (number, after) = u32_front(rest)?;
            ended(total, after)?;
            Ok(Entry::Served(number))
        }
        _ => Err(WireFault::BadTag(0)),
    }
}

fn u32_front(bytes: &[u8]) -> Result<(u32, &[u8]), WireFault>
    ensures { Gives (λ x. (x.0, x.1.now)) told result (number_at_front bytes.now) }
{
    if bytes.len() < 4 {
        return Err(WireFault::Short);
    }
    let (front, rest) = bytes.split_at(4);
    let number = u32::from_be_bytes([front[0], front[1], front[2], front[3]]);
    Ok((number, rest))
}

#[tactic(auto, unfolding(crate::specs::Entries::closed_at))]
fn closed_front(total: usize, bytes: &[u8]) -> Result<(bool, &[u8]), WireFault>
    ensures { Gives (λ x. (x.0, x.1.now)) told result (closed_at total bytes.now) }
{
    match bytes {
        [] => Err(WireFault::Short),
        [0, rest @ ..] => Ok((false, rest)),
        [1, rest @ ..] => Ok((true, rest)),
        [_, ..] => Err(WireFault::BadTag(place(total, bytes))),
    }
}

fn ended(total: usize, rest: &[u8]) -> Result<(), WireFault>
    ensures { Gives (λ x. x) told result (end_at total rest.now) }
{
    if rest.is_empty() {
        Ok(())
    } else {
        Err(WireFault::NotCanonical(place(total, rest)))
    }
}
