ghost use Rattle.std.specs.Prelude.{◌≡◌, ◌<◌, ◌^◌, ◌++◌, ℕ, List, true, length, Ok, take, IfOk};
ghost use Rattle.arz_json.specs.Answer.{Gives};
ghost use Rattle.arz_wire.specs.Reading.{name_at, scalar_at, list_at, object_at, tree_at, first_tree, is_above, place as place_of, told};
ghost use Rattle.arz_json.specs.Tree.{IsWellFormed};
ghost use Rattle.arz_wire.specs.Names.{last_name};
ghost use Rattle.arz_json.specs.declared.tree.Json.{Json};
ghost use Rattle.arz_wire.specs.Spelling.{spelling};
ghost use Rattle.arz_wire.specs.Texts.{has_texts};

use crate::fault::WireFault;
use crate::items::{number_of, place, text_of};
use arz_json::{Json, Many, Member, Members, Text};
use std::alloc::Global;
use std::cmp::Ordering;

/// How many levels of lists and objects may open.
pub const MAX_LEVELS: u8 = 130;

fn above_last(members: &[Member], name: &Text) -> bool
    ensures { result ≡ is_above (last_name members.now) name.now }
{
    match members.last() {
        Some(before) => before.name.as_str().cmp(name.as_str()) == Ordering::Less,
        None => true,
    }
}

#[tactic(auto, unfolding(crate::specs::Reading::name_at))]
fn name_of<'a>(
    alloc: Global,
    total: usize,
    members: &[Member],
    bytes: &'a [u8],
) -> Result<(Text, &'a [u8]), WireFault>
    ensures { Gives (λ x. (x.0, x.1.now)) told result (name_at total (last_name members.now) bytes.now) }
{
    let (name, rest) = text_of(alloc, total, bytes)?;
    if above_last(members, &name) {
        Ok((name, rest))
    } else {
        let at = total.saturating_sub(name.as_str().len() + rest.len());
        Err(WireFault::NotCanonical(at as u64))
    }
}

fn scalar_of(alloc: Global, total: usize, tag: u8, rest: &[u8]) -> Result<(Json, &[u8]), WireFault>
    ensures { Gives (λ x. (x.0, x.1.now)) told result (scalar_at total tag rest.now) }
{
    match tag {
        0 => Ok((Json::Null, rest)),
        1 => Ok((Json::Flag(false), rest)),
        2 => Ok((Json::Flag(true), rest)),
        3 => {
            let (n, rest) = number_of(total, u64::MAX, rest)?;
            Ok((Json::Int(n as i128), rest))
        }
        4 => {
            let (n, rest) = number_of(total, i64::MAX as u64, rest)?;
            Ok((Json::Int(-1 - n as i128), rest))
        }
        5 => {
            let (text, rest) = text_of(alloc, total, rest)?;
            Ok((Json::Text(text), rest))
        }
        _ => Ok((Json::Opaque, rest)),
    }
}

// The first of these bytes is no tag.
fn no_tag(total: usize, bytes: &[u8]) -> WireFault
    ensures { result ≡ WireFault.BadTag (place_of total bytes.now) }
{
    WireFault::BadTag(place(total, bytes))
}

#[cycle(read)]
pub fn tree_of(
    alloc: Global,
    total: usize,
    levels: u8,
    bytes: &[u8],
) -> Result<(Json, &[u8]), WireFault>
    ensures { Gives (λ x. (x.0, x.1.now)) told result (tree_at total levels bytes.now) }
{
    let Some((tag, rest)) = bytes.split_first() else {
        return Err(WireFault::Short);
    };
    if *tag > 8 {
        return Err(no_tag(total, bytes));
    }
    if *tag != 6 && *tag != 7 {
        return scalar_of(alloc, total, *tag, rest);
    }
    if levels == 0 {
        return Err(WireFault::TooDeep(place(total, bytes)));
    }
    if *tag == 6 {
        let (items, rest) = items_of(alloc, total, levels - 1, rest)?;
        Ok((Json::List(items), rest))
    } else {
        let (members, rest) = members_of(alloc, total, levels - 1, rest)?;
        Ok((Json::Object(members), rest))
    }
}

#[cycle(read)]
fn items_of(
    alloc: Global,
    total: usize,
    levels: u8,
    bytes: &[u8],
) -> Result<(Many<Json>, &[u8]), WireFault>
    ensures { Gives (λ x. (x.0, x.1.now)) told result (list_at (tree_at total levels) total bytes.now) }
{
    let (count, front) = number_of(total, u64::MAX, bytes)?;
    let mut items = Vec::new(alloc);
    let mut rest = front;
    for _ in 0..count {
        let (item, after) = tree_of(alloc, total, levels, rest)?;
        items.push(item)?;
        rest = after;
    }
    Ok((Many::from_std(items), rest))
}

#[cycle(read)]
fn members_of(
    alloc: Global,
    total: usize,
    levels: u8,
    bytes: &[u8],
) -> Result<(Members, &[u8]), WireFault>
    ensures { Gives (λ x. (x.0, x.1.now)) told result (object_at (tree_at total levels) total bytes.now) }
{
    let (count, front) = number_of(total, u64::MAX, bytes)?;
    let mut members = Vec::new(alloc);
    let mut rest = front;
    for _ in 0..count {
        let (name, after) = name_of(alloc, total, members.as_slice(), rest)?;
        let (value, after) = tree_of(alloc, total, levels, after)?;
        members.push(Member { name, value })?;
        rest = after;
    }
    Ok((Many::from_std(members), rest))
}

#[tactic(auto, unfolding(crate::specs::Reading::first_tree))]
fn first_of(alloc: Global, bytes: &[u8]) -> Result<(Json, usize), WireFault>
    ensures exact { Gives (λ x. x) told result (first_tree bytes.now) }
    ensures room { length bytes.now < 2 ^ 64 }
{
    let (tree, rest) = tree_of(alloc, bytes.len(), MAX_LEVELS, bytes)?;
    Ok((tree, bytes.len().saturating_sub(rest.len())))
}

/// The tree whose spelling stands at the front of the bytes, and how many bytes the spelling has.
/// Others may follow. No memory is taken for a number of items or bytes before they are there.
pub fn read(alloc: Global, bytes: &[u8]) -> Result<(Json, usize), WireFault>
    // What is read is spelled so.
    ensures spelt { IfOk result (λ r. take r.1 bytes.now ≡ spelling r.0) }
    ensures well_formed { IfOk result (λ r. IsWellFormed r.0) }
    // What is spelled so is read, whatever follows, unless memory runs out.
    ensures only { (v : Json) (rest : List ℕ) → IsWellFormed v → has_texts v ≡ true
        → bytes.now ≡ spelling v ++ rest → Gives (λ r. r) told result (Ok (v, length (spelling v))) }
    // Which fault it is, and that nothing else is one.
    ensures exact { Gives (λ r. r) told result (first_tree bytes.now) }
{
    first_of(alloc, bytes)
}
