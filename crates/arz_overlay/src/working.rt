// An action at its places.
ghost use Rattle.std.specs.Prelude.{◌≡◌, ◌+◌, ◌-◌, ◌≤◌, length, max, nat_lt, true, false, None, IfOk};
ghost use Rattle.std.specs.Option.{option_copied};
ghost use Rattle.arz_json.specs.Answer.{Gives};
ghost use Rattle.arz_json.specs.Tree.{has_form, depth};
ghost use Rattle.arz_changes.specs.Actions.{standing as stands, removal_rule};
ghost use Rattle.arz_overlay.specs.Applied.{Keeps, rule_in, tree_of_work};
ghost use Rattle.arz_overlay.specs.Depths.{above, reach};
ghost use Rattle.arz_overlay.specs.Documents.{removes as is_removal, update_of};
ghost use Rattle.arz_changes.specs.Groups.{places_seen, ways_seen};
ghost use Rattle.arz_overlay.specs.Steps.{done_at as done, removed as removed_at, updated_at, merged_at as merged_once, merged_at_each as merged_each, target_rule, is_over as is_over_limits};
ghost use Rattle.arz_changes.specs.Weight.{weight as weight_of};

use crate::fault::StepFault;
use crate::once::{all_ways, each_once};
use arz_changes::{Tally, Way, is_container, removal_rule_of, standing, update_at, without};
use arz_json::{Json, Place, Token, copy, is_deeper};
use arz_wire::tree_length;
use std::alloc::{AllocError, Global};

// How deep a tree may nest after a merge.
const DEEPEST: usize = 127;
// How many bytes of wire form it may have then.
const HEAVIEST: u64 = 33_554_432;

/// A tree while actions change it, how many bytes of wire form it has, and whether it is known to nest at
/// most 127 deep.
#[derive(Debug, Drop)]
pub(crate) struct Work {
    pub tree: Json,
    pub weight: u64,
    pub is_shallow: bool,
}

/// A copy of the tree.
pub(crate) fn started(alloc: Global, root: &Json) -> Result<Work, AllocError>
    requires { has_form root.now ≡ true }
    ensures tree { IfOk result (λ w. w.tree ≡ root.now) }
    ensures keeps { IfOk result Keeps }
{
    let weight = tree_length(root).ok_or(AllocError)?;
    let is_shallow = !is_deeper(root, DEEPEST);
    let tree = copy(alloc, root)?;
    Ok(Work {
        tree,
        weight,
        is_shallow,
    })
}

/// What an action makes of the tree at the places that were selected in it.
pub(crate) fn done_at(
    alloc: Global,
    action: &Json,
    places: &[Place],
    work: Work,
) -> Result<Work, StepFault>
    requires keeps { Keeps work }
    requires action { has_form action.now ≡ true }
    ensures gives { Gives tree_of_work rule_in result (done action.now (places_seen places.now) work.tree) }
    ensures keeps { IfOk result Keeps }
    ensures nests { IfOk result (λ w. depth w.tree ≤ max 127 (depth work.tree)) }
{
    if removes(action) {
        return removed(alloc, places, work);
    }
    match action.get("update") {
        Some(update) => {
            let ways = each_once(alloc, places)?;
            merged_at_each(alloc, update, ways.as_slice(), work)
        }
        None => {
            let ways = all_ways(alloc, places)?;
            untouched(ways.as_slice(), work)
        }
    }
}

// Whether the action's `remove` is true.
fn removes(action: &Json) -> bool
    ensures { result ≡ is_removal action.now }
{
    match action.get("remove") {
        Some(Json::Flag(is_set)) => *is_set,
        _ => false,
    }
}

// The tree without the places.
fn removed(alloc: Global, places: &[Place], work: Work) -> Result<Work, StepFault>
    requires keeps { Keeps work }
    ensures gives { Gives tree_of_work rule_in result (removed_at (places_seen places.now) work.tree) }
    ensures keeps { IfOk result Keeps }
    ensures nests { IfOk result (λ w. depth w.tree ≤ max 127 (depth work.tree)) }
{
    let ways = all_ways(alloc, places)?;
    if let Some(rule) = removal_rule_of(&work.tree, ways.as_slice()) {
        return Err(StepFault::Rule(rule));
    }
    let Work {
        tree,
        weight,
        is_shallow,
    } = work;
    let mut tally = Tally { gone: 0, come: 0 };
    let tree = without(alloc, tree, ways.as_slice(), &mut tally)?;
    let weight = balance(weight, tally)?;
    Ok(Work {
        tree,
        weight,
        is_shallow,
    })
}

// The tree as it is, where an object or a list stands at each place.
fn untouched(ways: &[Way], work: Work) -> Result<Work, StepFault>
    requires keeps { Keeps work }
    ensures gives { Gives tree_of_work rule_in result (updated_at None (ways_seen ways.now) work.tree) }
    ensures keeps { IfOk result Keeps }
    ensures nests { IfOk result (λ w. depth w.tree ≤ max 127 (depth work.tree)) }
{
    match target_rule_of(&work.tree, ways) {
        Some(rule) => Err(StepFault::Rule(rule)),
        None => Ok(work),
    }
}

fn target_rule_of(tree: &Json, ways: &[Way]) -> Option<u8>
    requires { has_form tree.now ≡ true }
    ensures { result ≡ target_rule (ways_seen ways.now) tree.now }
{
    for way in ways {
        if !is_container(standing(tree, way.tokens)) {
            return Some(25);
        }
    }
    None
}

// The tree with an update merged at one place after another.
fn merged_at_each(alloc: Global, update: &Json, ways: &[Way], work: Work) -> Result<Work, StepFault>
    requires keeps { Keeps work }
    requires update { has_form update.now ≡ true }
    ensures gives { Gives tree_of_work rule_in result (merged_each update.now (ways_seen ways.now) work.tree) }
    ensures keeps { IfOk result Keeps }
    ensures nests { IfOk result (λ w. depth w.tree ≤ max 127 (depth work.tree)) }
{
    let mut work = work;
    for way in ways {
        work = merged_at(alloc, update, way.tokens, work)?;
    }
    Ok(work)
}

// The tree with an update merged at one place, within the limits. How deep it nests then is told by the place
// and the update alone, where it was shallow before.
fn merged_at(alloc: Global, update: &Json, place: &[Token], work: Work) -> Result<Work, StepFault>
    requires keeps { Keeps work }
    requires update { has_form update.now ≡ true }
    ensures gives { Gives tree_of_work rule_in result (merged_once update.now place.now work.tree) }
    ensures keeps { IfOk result Keeps }
    ensures nests { IfOk result (λ w. depth w.tree ≤ 127) }
{
    let reaches = reaches_too_deep(&work.tree, place, update);
    let Work {
        tree,
        weight,
        is_shallow,
    } = work;
    let mut tally = Tally { gone: 0, come: 0 };
    let tree = update_at(alloc, tree, place, update, &mut tally)?;
    let weight = balance(weight, tally)?;
    if is_over(&tree, weight, is_shallow, reaches) {
        return Err(StepFault::Rule(24));
    }
    Ok(Work {
        tree,
        weight,
        is_shallow: true,
    })
}

// Whether the tree passes a limit, of which the bytes are counted.
fn is_over(tree: &Json, weight: u64, was_shallow: bool, reaches: bool) -> bool
    requires weighs { weight ≡ weight_of tree.now }
    requires nests { was_shallow ≡ true → reaches ≡ false → depth tree.now ≤ 127 }
    ensures { result ≡ is_over_limits tree.now }
{
    weight > HEAVIEST || is_too_deep(tree, was_shallow, reaches)
}

// The bytes after a change, by those before it.
fn balance(weight: u64, tally: Tally) -> Result<u64, AllocError>
    requires { tally.gone ≤ weight + tally.come }
    ensures { IfOk result (λ after. after ≡ weight + tally.come - tally.gone) }
{
    let most = weight.checked_add(tally.come).ok_or(AllocError)?;
    Ok(most - tally.gone)
}

// Whether an update that is merged at a place nests deeper than 127, seen from the root.
fn reaches_too_deep(tree: &Json, place: &[Token], update: &Json) -> bool
    requires { has_form tree.now ≡ true }
    ensures { result ≡ nat_lt 127 (reach update.now place.now tree.now) }
{
    let steps = steps_above(standing(tree, place), place);
    steps > DEEPEST || is_deeper(update, DEEPEST - steps)
}

// How many lists and objects an update lies in: as an item of a list it has one more above it.
fn steps_above(value: Option<&Json>, place: &[Token]) -> usize
    ensures { result ≡ above (option_copied value.entry) (length place.now) }
{
    match value {
        Some(Json::List(_)) => place.len() + 1,
        _ => place.len(),
    }
}

// Whether the tree nests deeper than 127. Where it was shallow, only what was merged can be too deep.
fn is_too_deep(tree: &Json, was_shallow: bool, reaches: bool) -> bool
    requires { was_shallow ≡ true → reaches ≡ false → depth tree.now ≤ 127 }
    ensures { result ≡ nat_lt 127 (depth tree.now) }
{
    if was_shallow && !reaches {
        return false;
    }
    is_deeper(tree, DEEPEST)
}
