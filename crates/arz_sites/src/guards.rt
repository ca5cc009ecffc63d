// Checks made of checks, and checks at each action and each criterion.
ghost use Rattle.std.specs.Prelude.{◌≡◌, true, IfOk, map};
ghost use Rattle.arz_json.specs.Tree.{has_form};
ghost use Rattle.arz_rules.specs.Place.{least, tokens_in};
ghost use Rattle.arz_sites.specs.Sites.{each_action, each_criterion, runs_workflow as flow_step};

use crate::sites::{listed_actions, shared_actions};
use arz_components::is_reuse;
use arz_json::{Json, Place};
use arz_rules::Way::{EachItem, Member};
use arz_rules::{Check, Way, first_at, first_at_each, lesser};
use std::alloc::{AllocError, Global};

/// Whether a step runs a workflow (Arazzo 1.0.1, section 4.6.5).
pub fn runs_workflow(step: &Json) -> bool
    ensures { result ≡ flow_step step.now }
{
    step.get("workflowId").is_some()
}

/// A check that passes over reusable objects (Arazzo 1.0.1, section 4.6.10).
#[derive(Drop)]
pub struct UnlessReuse<'c, C> {
    pub check: &'c C,
}

impl<'c, C: Check> Check for UnlessReuse<'c, C> {
    ghost use Rattle.arz_sites.specs.Sites.{unless_reuse};

    ghost places = { λ c. unless_reuse (C.places c.check.now) };

    fn first(&self, alloc: Global, tree: &Json) -> Result<Option<Place>, AllocError> {
        if is_reuse(tree) {
            return Ok(None);
        }
        self.check.first(alloc, tree)
    }
}

/// A check that passes over steps that run workflows.
#[derive(Drop)]
pub struct UnlessFlow<'c, C> {
    pub check: &'c C,
}

impl<'c, C: Check> Check for UnlessFlow<'c, C> {
    ghost use Rattle.arz_sites.specs.Wants.{unless_flow};

    ghost places = { λ c. unless_flow (C.places c.check.now) };

    fn first(&self, alloc: Global, tree: &Json) -> Result<Option<Place>, AllocError> {
        if runs_workflow(tree) {
            return Ok(None);
        }
        self.check.first(alloc, tree)
    }
}

/// A check made at a site below.
#[derive(Drop)]
pub struct Below<'c, C> {
    pub ways: &'c [Way<'c>],
    pub check: &'c C,
}

impl<'c, C: Check> Check for Below<'c, C> {
    ghost use Rattle.std.specs.Prelude.{map};
    ghost use Rattle.arz_rules.specs.Sites.{seen_way, at};

    ghost places = { λ c. at (map seen_way c.ways.now) (C.places c.check.now) };

    fn first(&self, alloc: Global, tree: &Json) -> Result<Option<Place>, AllocError> {
        first_at(alloc, self.ways, self.check, tree)
    }
}

/// The least place at which the check fails at an action, in a list or among the components.
pub fn first_in_actions<C: Check>(
    alloc: Global,
    check: &C,
    root: &Json,
) -> Result<Option<Place>, AllocError>
    requires { has_form root.now ≡ true }
    ensures { IfOk result (λ p. tokens_in p ≡ least (each_action (C.places check.now) root.now)) }
{
    let listed = first_at_each(alloc, listed_actions(), &UnlessReuse { check }, root)?;
    let shared = first_at_each(alloc, shared_actions(), check, root)?;
    Ok(lesser(listed, shared))
}

const STEP_CRITERIA: [Way<'static>; 6] = [
    Member("workflows"),
    EachItem,
    Member("steps"),
    EachItem,
    Member("successCriteria"),
    EachItem,
];

const ACTION_CRITERIA: [Way<'static>; 2] = [Member("criteria"), EachItem];

/// The least place at which the check fails at a criterion, of a step or of an action.
pub fn first_in_criteria<C: Check>(
    alloc: Global,
    check: &C,
    root: &Json,
) -> Result<Option<Place>, AllocError>
    requires { has_form root.now ≡ true }
    ensures { IfOk result (λ p. tokens_in p ≡ least (each_criterion (C.places check.now) root.now)) }
{
    let of_steps = first_at(alloc, &STEP_CRITERIA, check, root)?;
    let below = Below {
        ways: &ACTION_CRITERIA,
        check,
    };
    let of_actions = first_in_actions(alloc, &below, root)?;
    Ok(lesser(of_steps, of_actions))
}
