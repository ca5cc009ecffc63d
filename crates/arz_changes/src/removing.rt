// A tree without some of its places.
ghost use Rattle.std.specs.Prelude.{◌≡◌, ℕ, ◌<◌, ◌∷◌, ◌++◌, [], length, map, true, IfOk, OnOk, slice_index_or};
ghost use Rattle.std.specs.Option.{option_to_list};
ghost use Rattle.arz_json.specs.Tree.{has_form, all_true, are_ordered};
ghost use Rattle.arz_json.specs.declared.tree.Member.{Member as MemberTree};
ghost use Rattle.arz_json.specs.declared.place.Token.TheVariants.{Name, Index};
ghost use Rattle.arz_changes.specs.Removal.{without as tree_without, below, child_kept, member_kept, items_kept, members_kept};
ghost use Rattle.arz_changes.specs.Groups.{ways_seen, groups_seen};
ghost use Rattle.arz_changes.specs.Weight.{Tallies, weight, weight_there, items_weight, members_weight};

use crate::groups::{Way, has_end, item_groups, member_groups};
use crate::tally::Tally;
use arz_json::{Json, Many, Member, Members};
use arz_wire::number_length;
use std::alloc::{AllocError, Global};
use std::collections::VecDeque;

/// The tree without what stands at any of the places. Where a place has another below it, what stands there
/// goes as a whole. It takes time in the children of the values on the ways, and in what goes.
#[cycle(without)]
pub fn without(
    alloc: Global,
    tree: Json,
    ways: &[Way],
    tally: &mut Tally,
) -> Result<Json, AllocError>
    requires { has_form tree ≡ true }
    ensures gives { IfOk result (λ j. j ≡ tree_without tree (ways_seen ways.now)) }
    ensures tallies { IfOk result (λ j. Tallies tally.old tally.new (weight tree) (weight j)) }
{
    match tree {
        Json::List(items) => Ok(Json::List(kept_items(alloc, items, ways, tally)?)),
        Json::Object(members) => Ok(Json::Object(kept_members(alloc, members, ways, tally)?)),
        other => Ok(other),
    }
}

// What is left of a child.
#[cycle(without)]
fn kept_child(
    alloc: Global,
    child: Json,
    ways: &[Way],
    tally: &mut Tally,
) -> Result<Option<Json>, AllocError>
    requires { has_form child ≡ true }
    ensures gives { IfOk result (λ o. o ≡ child_kept child (ways_seen ways.now)) }
    ensures tallies { IfOk result (λ o. Tallies tally.old tally.new (weight child) (weight_there o)) }
{
    if ways.is_empty() {
        return Ok(Some(child));
    }
    if has_end(ways) {
        tally.tree_goes(&child)?;
        return Ok(None);
    }
    Ok(Some(without(alloc, child, ways, tally)?))
}

#[cycle(without)]
fn kept_items(
    alloc: Global,
    items: Many<Json>,
    ways: &[Way],
    tally: &mut Tally,
) -> Result<Many<Json>, AllocError>
    requires { all_true (map has_form items) ≡ true }
    ensures gives { IfOk result (λ js. js ≡ items_kept (ways_seen ways.now) 0 items) }
    ensures tallies { IfOk result (λ js. Tallies tally.old tally.new (weight (Json.List items)) (weight (Json.List js))) }
{
    tally.goes(number_length(items.len() as u64))?;
    let groups = item_groups(alloc, items.len(), ways)?;
    let kept = left_items(alloc, items.into_std(), ways, groups.as_slice(), tally)?;
    let kept = Many::from_std(kept);
    tally.comes(number_length(kept.len() as u64))?;
    Ok(kept)
}

#[cycle(without)]
fn left_items(
    alloc: Global,
    items: Vec<Json>,
    ways: &[Way],
    groups: &[Vec<Way>],
    tally: &mut Tally,
) -> Result<Vec<Json>, AllocError>
    requires form { all_true (map has_form items.items) ≡ true }
    requires len { length groups.now ≡ length items.items }
    requires groups { (k : ℕ) → k < length items.items → slice_index_or (groups_seen groups.now) k [] ≡ below (Index k) (ways_seen ways.now) }
    ensures gives { IfOk result (λ v. v.items ≡ items_kept (ways_seen ways.now) 0 items.items) }
    ensures tallies { IfOk result (λ v. Tallies tally.old tally.new (items_weight items.items) (items_weight v.items)) }
{
    let mut rest = VecDeque::from_vec(items);
    let mut kept = Vec::new(alloc);
    for group in groups {
        let Some(item) = rest.pop_front() else {
            break;
        };
        let left = kept_child(alloc, item, group.as_slice(), tally)?;
        push_any(&mut kept, left)?;
    }
    Ok(kept)
}

#[cycle(without)]
fn kept_members(
    alloc: Global,
    members: Members,
    ways: &[Way],
    tally: &mut Tally,
) -> Result<Members, AllocError>
    requires order { are_ordered (map (λ m. (m.name, has_form m.value)) members) ≡ true }
    requires form { all_true (map (λ m. has_form m.value) members) ≡ true }
    ensures gives { IfOk result (λ ms. ms ≡ members_kept (ways_seen ways.now) members) }
    ensures tallies { IfOk result (λ ms. Tallies tally.old tally.new (weight (Json.Object members)) (weight (Json.Object ms))) }
{
    tally.goes(number_length(members.len() as u64))?;
    let groups = member_groups(alloc, members.as_slice(), ways)?;
    let kept = left_members(alloc, members.into_std(), ways, groups.as_slice(), tally)?;
    let kept = Many::from_std(kept);
    tally.comes(number_length(kept.len() as u64))?;
    Ok(kept)
}

#[cycle(without)]
fn left_members(
    alloc: Global,
    members: Vec<Member>,
    ways: &[Way],
    groups: &[Vec<Way>],
    tally: &mut Tally,
) -> Result<Vec<Member>, AllocError>
    requires form { all_true (map (λ m. has_form m.value) members.items) ≡ true }
    requires len { length groups.now ≡ length members.items }
    requires groups { (k : ℕ) (d : MemberTree) → k < length members.items → slice_index_or (groups_seen groups.now) k [] ≡ below (Name (slice_index_or members.items k d).name) (ways_seen ways.now) }
    ensures gives { IfOk result (λ v. v.items ≡ members_kept (ways_seen ways.now) members.items) }
    ensures tallies { IfOk result (λ v. Tallies tally.old tally.new (members_weight members.items) (members_weight v.items)) }
{
    let mut rest = VecDeque::from_vec(members);
    let mut kept = Vec::new(alloc);
    for group in groups {
        let Some(member) = rest.pop_front() else {
            break;
        };
        let left = kept_member(alloc, member, group.as_slice(), tally)?;
        push_any(&mut kept, left)?;
    }
    Ok(kept)
}

#[cycle(without)]
fn kept_member(
    alloc: Global,
    member: Member,
    ways: &[Way],
    tally: &mut Tally,
) -> Result<Option<Member>, AllocError>
    requires { has_form member.value ≡ true }
    ensures gives { IfOk result (λ o. o ≡ member_kept member (ways_seen ways.now)) }
    ensures tallies { IfOk result (λ o. Tallies tally.old tally.new (members_weight (member ∷ [])) (members_weight (option_to_list o))) }
{
    let Member { name, value } = member;
    match kept_child(alloc, value, ways, tally)? {
        Some(value) => Ok(Some(Member { name, value })),
        None => {
            tally.name_goes(name.as_str())?;
            Ok(None)
        }
    }
}

fn push_any<T: Drop>(items: &mut Vec<T>, item: Option<T>) -> Result<(), AllocError>
    ensures { OnOk result (items.new.items ≡ items.old.items ++ option_to_list item) }
{
    if let Some(item) = item {
        items.push(item)?;
    }
    Ok(())
}
