// What stands a second time in a list of the description.
ghost use Rattle.std.specs.Prelude.{◌≡◌, true, IfOk, map};
ghost use Rattle.arz_json.specs.Tree.{has_form};
ghost use Rattle.arz_rules.specs.Place.{least, tokens_in};
ghost use Rattle.arz_rules.specs.Sites.{at, at_each, seen_way, seen_site};
ghost use Rattle.arz_components.specs.Indexes.{finds};
ghost use Rattle.arz_names.specs.declared.repeats.Key.TheVariants.{NamedIn};
ghost use Rattle.arz_names.specs.Names.{repeats, repeated_names, repeated_actions, repeated_givens, duplicates, repeated_parameters as parameters_repeated, repeated_in_step as repeated_below_step};

use crate::repeats::{Key, Listed};
use arz_components::{Components, Part};
use arz_json::{Json, Location, Place};
use arz_rules::Way::{EachItem, Member};
use arz_rules::{Check, Distinct, Way, first_at, first_at_each, lesser};
use arz_sites::{failure_lists, runs_workflow, success_lists};
use std::alloc::{AllocError, Global};

fn first_place(
    alloc: Global,
    components: &Components,
    place: Location,
    list: &Json,
) -> Result<Option<Place>, AllocError>
    requires { has_form list.now ≡ true }
    ensures { IfOk result (λ p. tokens_in p ≡ least (repeats (finds components.now) (NamedIn place) list.now)) }
{
    let listed = Listed {
        components,
        key: Key::NamedIn(place),
    };
    let check = Distinct { keyed: &listed };
    check.first(alloc, list)
}

fn first_parameter(
    alloc: Global,
    components: &Components,
    list: &Json,
) -> Result<Option<Place>, AllocError>
    requires { has_form list.now ≡ true }
    ensures { IfOk result (λ p. tokens_in p ≡ least (parameters_repeated (finds components.now) list.now)) }
{
    let paths = first_place(alloc, components, Location::Path, list)?;
    let queries = first_place(alloc, components, Location::Query, list)?;
    let headers = first_place(alloc, components, Location::Header, list)?;
    let cookies = first_place(alloc, components, Location::Cookie, list)?;
    let urls = lesser(paths, queries);
    let heads = lesser(urls, headers);
    Ok(lesser(heads, cookies))
}

/// No two parameters of a list have one name and place.
#[derive(Drop)]
struct DistinctParameters<'s, 'a> {
    components: &'s Components<'a>,
}

impl<'s, 'a> Check for DistinctParameters<'s, 'a> {
    ghost use Rattle.arz_components.specs.Indexes.{finds};
    ghost use Rattle.arz_names.specs.Names.{repeated_parameters};

    ghost places = { λ c. repeated_parameters (finds c.components.now) };

    fn first(&self, alloc: Global, tree: &Json) -> Result<Option<Place>, AllocError> {
        let components = self.components;
        first_parameter(alloc, components, tree)
    }
}

const PARAMETERS: [Way<'static>; 1] = [Member("parameters")];

fn first_in_step(
    alloc: Global,
    components: &Components,
    step: &Json,
) -> Result<Option<Place>, AllocError>
    requires { has_form step.now ≡ true }
    ensures { IfOk result (λ p. tokens_in p ≡ least (repeated_below_step (finds components.now) step.now)) }
{
    if runs_workflow(step) {
        let key = Key::Named(Part::Parameters);
        first_at_list(alloc, components, key, &PARAMETERS, step)
    } else {
        first_at(alloc, &PARAMETERS, &DistinctParameters { components }, step)
    }
}

/// No two parameters of a step are told apart by nothing.
#[derive(Drop)]
struct DistinctInStep<'s, 'a> {
    components: &'s Components<'a>,
}

impl<'s, 'a> Check for DistinctInStep<'s, 'a> {
    ghost use Rattle.arz_components.specs.Indexes.{finds};
    ghost use Rattle.arz_names.specs.Names.{repeated_in_step};

    ghost places = { λ c. repeated_in_step (finds c.components.now) };

    fn first(&self, alloc: Global, tree: &Json) -> Result<Option<Place>, AllocError> {
        let components = self.components;
        first_in_step(alloc, components, tree)
    }
}

const SOURCE_LIST: [Way<'static>; 1] = [Member("sourceDescriptions")];

const WORKFLOW_LIST: [Way<'static>; 1] = [Member("workflows")];

const STEP_LISTS: [Way<'static>; 3] = [Member("workflows"), EachItem, Member("steps")];

const STEPS: [Way<'static>; 4] = [Member("workflows"), EachItem, Member("steps"), EachItem];

const WORKFLOW_PARAMETERS: [Way<'static>; 3] = [
    Member("workflows"),
    EachItem,
    Member("parameters"),
];

fn first_at_list(
    alloc: Global,
    components: &Components,
    key: Key,
    ways: &[Way],
    root: &Json,
) -> Result<Option<Place>, AllocError>
    requires { has_form root.now ≡ true }
    ensures { IfOk result (λ p. tokens_in p ≡ least (at (map seen_way ways.now) (repeats (finds components.now) key) root.now)) }
{
    let listed = Listed { components, key };
    first_at(alloc, ways, &Distinct { keyed: &listed }, root)
}

fn first_at_lists(
    alloc: Global,
    components: &Components,
    key: Key,
    sites: &[&[Way]],
    root: &Json,
) -> Result<Option<Place>, AllocError>
    requires { has_form root.now ≡ true }
    ensures { IfOk result (λ p. tokens_in p ≡ least (at_each (map seen_site sites.now) (repeats (finds components.now) key) root.now)) }
{
    let listed = Listed { components, key };
    first_at_each(alloc, sites, &Distinct { keyed: &listed }, root)
}

fn first_name(
    alloc: Global,
    components: &Components,
    root: &Json,
) -> Result<Option<Place>, AllocError>
    requires { has_form root.now ≡ true }
    ensures { IfOk result (λ p. tokens_in p ≡ least (repeated_names (finds components.now) root.now)) }
{
    let sources = first_at_list(alloc, components, Key::Name, &SOURCE_LIST, root)?;
    let workflows = first_at_list(alloc, components, Key::WorkflowId, &WORKFLOW_LIST, root)?;
    let steps = first_at_list(alloc, components, Key::StepId, &STEP_LISTS, root)?;
    let outer = lesser(sources, workflows);
    Ok(lesser(outer, steps))
}

fn first_action(
    alloc: Global,
    components: &Components,
    root: &Json,
) -> Result<Option<Place>, AllocError>
    requires { has_form root.now ≡ true }
    ensures { IfOk result (λ p. tokens_in p ≡ least (repeated_actions (finds components.now) root.now)) }
{
    let success = Key::Named(Part::SuccessActions);
    let successes = first_at_lists(alloc, components, success, success_lists(), root)?;
    let failure = Key::Named(Part::FailureActions);
    let failures = first_at_lists(alloc, components, failure, failure_lists(), root)?;
    Ok(lesser(successes, failures))
}

fn first_given(
    alloc: Global,
    components: &Components,
    root: &Json,
) -> Result<Option<Place>, AllocError>
    requires { has_form root.now ≡ true }
    ensures { IfOk result (λ p. tokens_in p ≡ least (repeated_givens (finds components.now) root.now)) }
{
    let in_list = DistinctParameters { components };
    let of_workflows = first_at(alloc, &WORKFLOW_PARAMETERS, &in_list, root)?;
    let in_step = DistinctInStep { components };
    let of_steps = first_at(alloc, &STEPS, &in_step, root)?;
    Ok(lesser(of_workflows, of_steps))
}

/// The least place of what stands a second time in a list.
pub fn first_duplicate(
    alloc: Global,
    components: &Components,
    root: &Json,
) -> Result<Option<Place>, AllocError>
    requires { has_form root.now ≡ true }
    ensures { IfOk result (λ p. tokens_in p ≡ least (duplicates (finds components.now) root.now)) }
{
    let names = first_name(alloc, components, root)?;
    let actions = first_action(alloc, components, root)?;
    let givens = first_given(alloc, components, root)?;
    let named = lesser(names, actions);
    Ok(lesser(named, givens))
}
