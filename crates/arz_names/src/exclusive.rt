// Members that exclude each other.
ghost use Rattle.std.specs.Prelude.{◌≡◌, true, ◌∷◌, [], IfOk, codes, map};
ghost use Rattle.arz_json.specs.Look.{member_in};
ghost use Rattle.arz_json.specs.Tree.{has_form};
ghost use Rattle.arz_rules.specs.Place.{least, tokens_in};
ghost use Rattle.arz_names.specs.Names.{count_there, count_of, targets as target_count, is_type as has_type, has_targets as right_targets, mixtures};

use arz_components::text_of;
use arz_json::{Json, Place};
use arz_rules::Way::{EachItem, Member};
use arz_rules::{Check, Way, first_at, lesser, root_unless};
use arz_sites::first_in_actions;
use std::alloc::{AllocError, Global};

fn count(tree: &Json, name: &str) -> u64
    ensures { result ≡ count_there (member_in name.now tree.now) }
{
    match tree.get(name) {
        Some(_) => 1,
        None => 0,
    }
}

fn targets(action: &Json) -> u64
    ensures { result ≡ target_count action.now }
{
    count(action, "stepId") + count(action, "workflowId")
}

fn calls(step: &Json) -> u64
    ensures { result ≡ count_of (codes "operationId" ∷ codes "operationPath" ∷ codes "workflowId" ∷ []) step.now }
{
    count(step, "operationId") + count(step, "operationPath") + count(step, "workflowId")
}

fn is_type(word: &str, action: &Json) -> bool
    ensures { result ≡ has_type word.now action.now }
{
    match text_of(action, "type") {
        Some(text) => text == word,
        None => false,
    }
}

/// A step calls one operation, or runs one workflow.
#[derive(Clone, Copy, Debug)]
pub struct OneCall {}

impl Check for OneCall {
    ghost use Rattle.arz_names.specs.Names.{mixed_step};

    ghost places = { λ _. mixed_step };

    fn first(&self, alloc: Global, tree: &Json) -> Result<Option<Place>, AllocError> {
        Ok(root_unless(alloc, calls(tree) == 1))
    }
}

fn has_targets(action: &Json) -> bool
    ensures { result ≡ right_targets action.now }
{
    let count = targets(action);
    (!is_type("goto", action) || count == 1)
        && (!is_type("retry", action) || count <= 1)
        && (!is_type("end", action) || count == 0)
}

/// A `goto` has one target, a `retry` at most one, an `end` none.
#[derive(Clone, Copy, Debug)]
pub struct RightTargets {}

impl Check for RightTargets {
    ghost use Rattle.arz_names.specs.Names.{mixed_action};

    ghost places = { λ _. mixed_action };

    fn first(&self, alloc: Global, tree: &Json) -> Result<Option<Place>, AllocError> {
        Ok(root_unless(alloc, has_targets(tree)))
    }
}

const STEPS: [Way<'static>; 4] = [Member("workflows"), EachItem, Member("steps"), EachItem];

/// The least step or action whose members exclude each other.
pub fn first_mixture(alloc: Global, root: &Json) -> Result<Option<Place>, AllocError>
    requires { has_form root.now ≡ true }
    ensures { IfOk result (λ p. tokens_in p ≡ least (mixtures root.now)) }
{
    let steps = first_at(alloc, &STEPS, &OneCall {}, root)?;
    let actions = first_in_actions(alloc, &RightTargets {}, root)?;
    Ok(lesser(steps, actions))
}
