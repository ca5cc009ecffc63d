// Merging an update into what stands at its place.
ghost use Rattle.std.specs.Prelude.{◌≡◌, ◌+◌, ◌++◌, ◌∷◌, [], map, true, IfOk, OnOk};
ghost use Rattle.arz_json.specs.Tree.{has_form, all_true, are_ordered};
ghost use Rattle.arz_changes.specs.Merging.{merged as merged_value, items_there, members_there, added_items, merge_of, with_members, member as member_of};
ghost use Rattle.arz_changes.specs.Weight.{Tallies, weight, weight_there, items_weight, members_weight, member_there};

use crate::members::{move_before, take_named};
use crate::tally::Tally;
use arz_json::{Json, Many, Member, Members, copy};
use arz_wire::number_length;
use std::alloc::{AllocError, Global};
use std::collections::VecDeque;

/// What a value of an update makes of what stands at its place, where anything does (Overlay 1.0.0, section
/// 4.4.3.1). It takes time in the size of the update, of what gives way, and of the objects that are merged.
#[cycle(merge)]
pub fn merged(
    alloc: Global,
    update: &Json,
    old: Option<Json>,
    tally: &mut Tally,
) -> Result<Json, AllocError>
    requires { has_form update.now ≡ true }
    ensures gives { IfOk result (λ j. j ≡ merged_value update.now old) }
    ensures tallies { IfOk result (λ j. Tallies tally.old tally.new (weight_there old) (weight j)) }
{
    match update {
        Json::List(items) => Ok(Json::List(joined(alloc, items, old, tally)?)),
        Json::Object(members) => Ok(Json::Object(put_members(alloc, members, old, tally)?)),
        Json::Null | Json::Flag(_) | Json::Int(_) | Json::Text(_) | Json::Opaque => {
            gives_way(old, tally)?;
            tally.tree_comes(update)?;
            copy(alloc, update)
        }
    }
}

// What stands at a place goes.
fn gives_way(old: Option<Json>, tally: &mut Tally) -> Result<(), AllocError>
    ensures { OnOk result (Tallies tally.old tally.new (weight_there old) 0) }
{
    if let Some(tree) = old {
        tally.tree_goes(&tree)?;
    }
    Ok(())
}

// The items of a list that stands there; what else stands there goes.
fn items_of(alloc: Global, old: Option<Json>, tally: &mut Tally) -> Result<Vec<Json>, AllocError>
    ensures gives { IfOk result (λ v. v.items ≡ items_there old) }
    ensures tallies { IfOk result (λ v. Tallies tally.old tally.new (weight_there old) (items_weight v.items)) }
{
    match old {
        Some(tree) => list_items(alloc, tree, tally),
        None => Ok(Vec::new(alloc)),
    }
}

fn list_items(alloc: Global, tree: Json, tally: &mut Tally) -> Result<Vec<Json>, AllocError>
    ensures gives { IfOk result (λ v. v.items ≡ items_there (Some tree)) }
    ensures tallies { IfOk result (λ v. Tallies tally.old tally.new (weight tree) (items_weight v.items)) }
{
    match tree {
        Json::List(items) => {
            tally.goes(1 + number_length(items.len() as u64))?;
            Ok(items.into_std())
        }
        other => {
            tally.tree_goes(&other)?;
            Ok(Vec::new(alloc))
        }
    }
}

// The members of an object that stands there; what else stands there goes.
fn members_of(
    alloc: Global,
    old: Option<Json>,
    tally: &mut Tally,
) -> Result<Vec<Member>, AllocError>
    ensures gives { IfOk result (λ v. v.items ≡ members_there old) }
    ensures tallies { IfOk result (λ v. Tallies tally.old tally.new (weight_there old) (members_weight v.items)) }
{
    match old {
        Some(tree) => object_members(alloc, tree, tally),
        None => Ok(Vec::new(alloc)),
    }
}

fn object_members(alloc: Global, tree: Json, tally: &mut Tally) -> Result<Vec<Member>, AllocError>
    ensures gives { IfOk result (λ v. v.items ≡ members_there (Some tree)) }
    ensures tallies { IfOk result (λ v. Tallies tally.old tally.new (weight tree) (members_weight v.items)) }
{
    match tree {
        Json::Object(members) => {
            tally.goes(1 + number_length(members.len() as u64))?;
            Ok(members.into_std())
        }
        other => {
            tally.tree_goes(&other)?;
            Ok(Vec::new(alloc))
        }
    }
}

#[cycle(merge)]
fn joined(
    alloc: Global,
    update: &Many<Json>,
    old: Option<Json>,
    tally: &mut Tally,
) -> Result<Many<Json>, AllocError>
    requires { all_true (map has_form update.now) ≡ true }
    ensures gives { IfOk result (λ js. js ≡ items_there old ++ added_items update.now) }
    ensures tallies { IfOk result (λ js. Tallies tally.old tally.new (weight_there old) (weight (Json.List js))) }
{
    let mut items = items_of(alloc, old, tally)?;
    for item in update.as_slice() {
        items.push(merged(alloc, item, None, tally)?)?;
    }
    let items = Many::from_std(items);
    tally.comes(1 + number_length(items.len() as u64))?;
    Ok(items)
}

#[cycle(merge)]
fn put_members(
    alloc: Global,
    update: &Members,
    old: Option<Json>,
    tally: &mut Tally,
) -> Result<Members, AllocError>
    requires order { are_ordered (map (λ m. (m.name, has_form m.value)) update.now) ≡ true }
    requires form { all_true (map (λ m. has_form m.value) update.now) ≡ true }
    ensures gives { IfOk result (λ ms. ms ≡ with_members (map merge_of update.now) (members_there old)) }
    ensures tallies { IfOk result (λ ms. Tallies tally.old tally.new (weight_there old) (weight (Json.Object ms))) }
{
    let mut rest = VecDeque::from_vec(members_of(alloc, old, tally)?);
    let mut all = Vec::new(alloc);
    for member in update.as_slice() {
        move_before(member.name.as_str(), &mut rest, &mut all)?;
        let there = take_named(member.name.as_str(), &mut rest);
        all.push(put_member(alloc, member, there, tally)?)?;
    }
    all.append(&mut rest.into_vec())?;
    let all = Many::from_std(all);
    tally.comes(1 + number_length(all.len() as u64))?;
    Ok(all)
}

#[cycle(merge)]
fn put_member(
    alloc: Global,
    update: &Member,
    there: Option<Json>,
    tally: &mut Tally,
) -> Result<Member, AllocError>
    requires { has_form update.now.value ≡ true }
    ensures gives { IfOk result (λ m. m ≡ member_of update.now.name (merged_value update.now.value there)) }
    ensures tallies { IfOk result (λ m. Tallies tally.old tally.new (member_there update.now.name there) (member_there m.name (Some m.value))) }
{
    if there.is_none() {
        tally.name_comes(update.name.as_str())?;
    }
    let value = merged(alloc, &update.value, there, tally)?;
    let name = update.name.copy(alloc)?;
    Ok(Member { name, value })
}
