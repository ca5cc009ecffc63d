// Changing the value at a place of a tree.
ghost use Rattle.std.specs.Prelude.{◌≡◌, ◌++◌, ◌∷◌, [], true, IfOk};
ghost use Rattle.arz_json.specs.Answer.{Gives};
ghost use Rattle.arz_json.specs.Tree.{has_form};
ghost use Rattle.arz_changes.specs.Children.{changed};
ghost use Rattle.arz_changes.specs.Faults.{rule_of};
ghost use Rattle.arz_changes.specs.Merging.{updated as updated_value, no_target};
ghost use Rattle.arz_changes.specs.Weight.{Tallies, weight};
ghost use Rattle.arz_changes.specs.declared.changing.ChangeFault.TheVariants.{Memory};

use crate::children::child_index;
use crate::merging::merged;
use crate::tally::Tally;
use arz_json::{Json, Many, Token, copy, swap_child};
use arz_wire::number_length;
use std::alloc::{AllocError, Global};

/// Why the value at a place was not changed.
#[derive(Clone, Copy, Debug, PartialEq, Eq)]
pub enum ChangeFault {
    /// No object or list stands there.
    Target,
    /// The update of an object is none.
    Mismatch,
    /// There was not enough memory.
    Memory,
}

impl From<AllocError> for ChangeFault {
    ghost from_gives = { λ _ e. e ≡ Memory };

    fn from(_: AllocError) -> ChangeFault {
        ChangeFault::Memory
    }
}

/// The tree with what an update makes of the value at a place.
pub fn update_at(
    alloc: Global,
    tree: Json,
    place: &[Token],
    update: &Json,
    tally: &mut Tally,
) -> Result<Json, ChangeFault>
    requires tree { has_form tree ≡ true }
    requires update { has_form update.now ≡ true }
    ensures gives { Gives (λ j. j) rule_of result (changed (updated_value update.now) no_target place.now tree) }
    ensures tallies { IfOk result (λ j. Tallies tally.old tally.new (weight tree) (weight j)) }
    ensures form { IfOk result (λ j. has_form j ≡ true) }
{
    let Some((token, rest)) = place.split_first() else {
        return updated(alloc, tree, update, tally);
    };
    let Some(at) = child_index(&tree, token) else {
        return Err(ChangeFault::Target);
    };
    let (tree, child) = swap_child(tree, at, Json::Null);
    let child = update_at(alloc, child, rest, update, tally)?;
    let (tree, _) = swap_child(tree, at, child);
    Ok(tree)
}

fn updated(alloc: Global, tree: Json, update: &Json, tally: &mut Tally) -> Result<Json, ChangeFault>
    requires tree { has_form tree ≡ true }
    requires update { has_form update.now ≡ true }
    ensures gives { Gives (λ j. j) rule_of result (updated_value update.now tree) }
    ensures tallies { IfOk result (λ j. Tallies tally.old tally.new (weight tree) (weight j)) }
    ensures form { IfOk result (λ j. has_form j ≡ true) }
{
    match tree {
        Json::List(items) => Ok(Json::List(with_item(alloc, items, update, tally)?)),
        Json::Object(members) => {
            if update.as_object().is_none() {
                return Err(ChangeFault::Mismatch);
            }
            let object = Json::Object(members);
            Ok(merged(alloc, update, Some(object), tally)?)
        }
        _ => Err(ChangeFault::Target),
    }
}

// A list with the update as its last item.
fn with_item(
    alloc: Global,
    items: Many<Json>,
    update: &Json,
    tally: &mut Tally,
) -> Result<Many<Json>, AllocError>
    ensures gives { IfOk result (λ js. js ≡ items ++ update.now ∷ []) }
    ensures tallies { IfOk result (λ js. Tallies tally.old tally.new (weight (Json.List items)) (weight (Json.List js))) }
{
    let mut items = items;
    tally.goes(number_length(items.len() as u64))?;
    items.push(copy(alloc, update)?)?;
    tally.comes(number_length(items.len() as u64))?;
    tally.tree_comes(update)?;
    Ok(items)
}
