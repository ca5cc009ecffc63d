// The items of a list that an index or a slice selects.
ghost use Rattle.std.specs.Prelude.{◌≡◌, ◌≢◌, ◌≤◌, ◌++◌, map, length, pos, IfOk, OnOk};
ghost use Rattle.arz_path.specs.Tree.{item_child};
ghost use Rattle.arz_path.specs.Selected.{index_in, sliced, is_taken, up_to, past, bound, in_direction};
ghost use Rattle.arz_path.specs.Seen.{branch_of, lowest, highest, taken_from};

use crate::nodes::{Branch, Step};
use arz_json::Json;
use arz_query::Slice;
use std::alloc::{AllocError, Global};

/// The index in a list that a number names, and the length where it names none.
pub fn index_of(len: usize, i: i64) -> usize
    ensures { result ≡ index_in len i }
{
    if i >= 0 {
        return i as usize;
    }
    let back = i.unsigned_abs() as usize;
    if back <= len { len - back } else { len }
}

/// The first index that isn't before a number.
fn index_up_to(len: usize, i: i64) -> usize
    ensures { result ≡ up_to len i }
{
    let size = i.unsigned_abs() as usize;
    if i >= 0 {
        return size.min(len);
    }
    len.saturating_sub(size)
}

/// The first index after a number.
fn index_past(len: usize, i: i64) -> usize
    ensures { result ≡ past len i }
{
    let size = i.unsigned_abs() as usize;
    if i >= 0 {
        return size.saturating_add(1).min(len);
    }
    len.saturating_sub(size - 1)
}

fn first_forward(slice: &Slice, len: usize) -> usize
    ensures { result ≡ bound (up_to len) 0 slice.now.start }
{
    match slice.start {
        Some(i) => index_up_to(len, i),
        None => 0,
    }
}

fn end_forward(slice: &Slice, len: usize) -> usize
    ensures { result ≡ bound (up_to len) len slice.now.end }
{
    match slice.end {
        Some(i) => index_up_to(len, i),
        None => len,
    }
}

fn first_backward(slice: &Slice, len: usize) -> usize
    ensures { result ≡ bound (past len) len slice.now.start }
{
    match slice.start {
        Some(i) => index_past(len, i),
        None => len,
    }
}

fn end_backward(slice: &Slice, len: usize) -> usize
    ensures { result ≡ bound (past len) 0 slice.now.end }
{
    match slice.end {
        Some(i) => index_past(len, i),
        None => 0,
    }
}

/// Whether a slice takes an item of so many.
fn takes(slice: &Slice, len: usize, i: usize) -> bool
    requires { slice.now.step ≢ pos 0 }
    ensures { result ≡ is_taken slice.now len slice.now.step i }
{
    let step = slice.step.unsigned_abs() as usize;
    if slice.step >= 0 {
        let first = first_forward(slice, len);
        first <= i && i < end_forward(slice, len) && (i - first) % step == 0
    } else {
        let first = first_backward(slice, len);
        i < first && end_backward(slice, len) <= i && (first - (i + 1)) % step == 0
    }
}

/// The items that a slice takes, in its direction.
#[tactic(auto, unfolding(crate::specs::Seen::taken_from))]
pub fn slice_of<'a>(
    alloc: Global,
    slice: &Slice,
    items: &'a [Json],
) -> Result<Vec<Branch<'a>>, AllocError>
    ensures { IfOk result (λ all. map branch_of all.items ≡ sliced slice.now items.now) }
{
    let mut all = Vec::new(alloc);
    if slice.step == 0 {
        return Ok(all);
    }
    add_taken(slice, items, &mut all)?;
    turn(slice.step, &mut all);
    Ok(all)
}

#[tactic(auto, using(crate::proofs::Lists::map_reverse))]
fn turn(step: i64, all: &mut Vec<Branch>)
    ensures { map branch_of all.new.items ≡ in_direction step (map branch_of all.old.items) }
{
    if step < 0 {
        all.reverse();
    }
}

/// No item before this one is taken.
fn lowest_of(slice: &Slice, len: usize) -> usize
    ensures { result ≡ lowest slice.now len slice.now.step }
{
    if slice.step >= 0 {
        first_forward(slice, len)
    } else {
        end_backward(slice, len)
    }
}

/// Neither this item nor one after it is taken.
fn highest_of(slice: &Slice, len: usize) -> usize
    ensures same { result ≡ highest slice.now len slice.now.step }
    ensures within { result ≤ len }
{
    if slice.step >= 0 {
        end_forward(slice, len)
    } else {
        first_backward(slice, len)
    }
}

fn add_taken<'a>(
    slice: &Slice,
    items: &'a [Json],
    out: &mut Vec<Branch<'a>>,
) -> Result<(), AllocError>
    requires { slice.now.step ≢ pos 0 }
    ensures { OnOk result (map branch_of out.new.items ≡ map branch_of out.old.items
        ++ map item_child (taken_from slice.now (length items.now) 0 items.now)) }
{
    let lowest = lowest_of(slice, items.len());
    let highest = highest_of(slice, items.len());
    for i in lowest..highest {
        let value = &items[i];
        if !takes(slice, items.len(), i) {
            continue;
        }
        let step = Step::Index(i as u64);
        out.push(Branch { step, value })?;
    }
    Ok(())
}
