// What is named isn't there.
ghost use Rattle.std.specs.Prelude.{◌≡◌, true, IfOk, ℕ, List, option_map};
ghost use Rattle.std.specs.Option.{is_some};
ghost use Rattle.arz_json.specs.Tree.{has_form};
ghost use Rattle.arz_rules.specs.Place.{least, tokens_in};
ghost use Rattle.arz_rules.specs.Sets.{has};
ghost use Rattle.arz_components.specs.Indexes.{finds};
ghost use Rattle.arz_names.specs.Names.{wrong_use, lost_workflows_by, lost_steps as steps_lost, lost_steps_of, lost_sources_by, lost_components, lost_references, lost_names_with, placeless_uses, names_known, goes_known, goes_to as goes_to_one, has_place as place_there, is_input as input_there, is_step, is_source, is_workflow};
ghost use Rattle.arz_components.specs.declared.components.Part.TheVariants.{Parameters};

use crate::repeats::member_if;
use arz_components::{Components, Part, input_name, reused_name, text_of};
use arz_json::{Json, Place};
use arz_rules::Way::{EachItem, Member};
use arz_rules::{
    Among, Check, TextSet, Way, first_at, first_at_each, lesser, root_unless, texts_at,
};
use arz_sites::{
    Below, UnlessFlow, UnlessReuse, Wanted, failure_items, first_in_actions, own_failure_items,
    own_items, own_success_items, parameters, source_and_id, source_and_pointer, success_items,
};
use std::alloc::{AllocError, Global};

/// A reusable object names a component that is there.
#[derive(Drop)]
struct KnownUse<'s, 'a> {
    components: &'s Components<'a>,
    part: Part,
}

impl<'s, 'a> Check for KnownUse<'s, 'a> {
    ghost use Rattle.arz_components.specs.Indexes.{finds};
    ghost use Rattle.arz_names.specs.Names.{lost_use};

    ghost places = { λ c. lost_use (finds c.components.now) c.part };

    fn first(&self, alloc: Global, tree: &Json) -> Result<Option<Place>, AllocError> {
        match reused_name(self.part, tree) {
            Some(name) => {
                let found = self.components.find(self.part, name);
                member_if(alloc, found.is_none(), "reference")
            }
            None => Ok(None),
        }
    }
}

fn has_place(parameter: Option<&Json>) -> bool
    ensures { result ≡ place_there (option_map (λ j. j.now) parameter.entry) }
{
    match parameter {
        Some(parameter) => parameter.get("in").is_some(),
        None => true,
    }
}

/// A reusable object that goes into requests names no parameter that lacks its place.
#[derive(Drop)]
struct PlacedUse<'s, 'a> {
    components: &'s Components<'a>,
}

impl<'s, 'a> Check for PlacedUse<'s, 'a> {
    ghost use Rattle.arz_components.specs.Indexes.{finds};
    ghost use Rattle.arz_names.specs.Names.{wrong_use, has_place};
    ghost use Rattle.arz_components.specs.declared.components.Part.TheVariants.{Parameters};

    ghost places = { λ c. wrong_use (finds c.components.now) Parameters has_place };

    fn first(&self, alloc: Global, tree: &Json) -> Result<Option<Place>, AllocError> {
        match reused_name(Part::Parameters, tree) {
            Some(name) => {
                let found = self.components.find(Part::Parameters, name);
                member_if(alloc, !has_place(found), "reference")
            }
            None => Ok(None),
        }
    }
}

fn goes_to(steps: &TextSet, action: Option<&Json>) -> bool
    ensures { result ≡ goes_to_one (has steps.now) (option_map (λ j. j.now) action.entry) }
{
    match action {
        Some(action) => match text_of(action, "stepId") {
            Some(id) => steps.has(id),
            None => true,
        },
        None => true,
    }
}

/// A reusable object names no action that goes to another step than these.
#[derive(Drop)]
struct GoingUse<'s, 'a, 'w> {
    components: &'s Components<'a>,
    part: Part,
    steps: &'s TextSet<'w>,
}

impl<'s, 'a, 'w> Check for GoingUse<'s, 'a, 'w> {
    ghost use Rattle.arz_rules.specs.Sets.{has};
    ghost use Rattle.arz_components.specs.Indexes.{finds};
    ghost use Rattle.arz_names.specs.Names.{wrong_use, goes_to};

    ghost places = { λ c. wrong_use (finds c.components.now) c.part (goes_to (has c.steps.now)) };

    fn first(&self, alloc: Global, tree: &Json) -> Result<Option<Place>, AllocError> {
        match reused_name(self.part, tree) {
            Some(name) => {
                let found = self.components.find(self.part, name);
                member_if(alloc, !goes_to(self.steps, found), "reference")
            }
            None => Ok(None),
        }
    }
}

const STEP_ID: [Way<'static>; 1] = [Member("stepId")];

const STEP_IDS: [Way<'static>; 3] = [Member("steps"), EachItem, Member("stepId")];

fn first_lost_step(
    alloc: Global,
    components: &Components,
    steps: &TextSet,
    workflow: &Json,
) -> Result<Option<Place>, AllocError>
    requires { has_form workflow.now ≡ true }
    ensures { IfOk result (λ p. tokens_in p ≡ least (steps_lost (finds components.now) (has steps.now) workflow.now)) }
{
    let known = Among { set: steps };
    let target = Below {
        ways: &STEP_ID,
        check: &known,
    };
    let own = first_at_each(
        alloc,
        own_items(),
        &UnlessReuse { check: &target },
        workflow,
    )?;
    let success = GoingUse {
        components,
        part: Part::SuccessActions,
        steps,
    };
    let successes = first_at_each(alloc, own_success_items(), &success, workflow)?;
    let failure = GoingUse {
        components,
        part: Part::FailureActions,
        steps,
    };
    let failures = first_at_each(alloc, own_failure_items(), &failure, workflow)?;
    let written = lesser(own, successes);
    Ok(lesser(written, failures))
}

fn first_lost_step_of(
    alloc: Global,
    components: &Components,
    workflow: &Json,
) -> Result<Option<Place>, AllocError>
    requires { has_form workflow.now ≡ true }
    ensures { IfOk result (λ p. tokens_in p ≡ least (lost_steps_of (finds components.now) workflow.now)) }
{
    let steps = texts_at(alloc, &STEP_IDS, workflow)?;
    let found = first_lost_step(alloc, components, &steps, workflow)?;
    Ok(found)
}

/// The actions of a workflow go to its own steps.
#[derive(Drop)]
struct KnownSteps<'s, 'a> {
    components: &'s Components<'a>,
}

impl<'s, 'a> Check for KnownSteps<'s, 'a> {
    ghost use Rattle.arz_components.specs.Indexes.{finds};
    ghost use Rattle.arz_names.specs.Names.{lost_steps_of};

    ghost places = { λ c. lost_steps_of (finds c.components.now) };

    fn first(&self, alloc: Global, tree: &Json) -> Result<Option<Place>, AllocError> {
        let components = self.components;
        first_lost_step_of(alloc, components, tree)
    }
}

const DEPENDS: [Way<'static>; 4] = [Member("workflows"), EachItem, Member("dependsOn"), EachItem];

const RUNS: [Way<'static>; 5] = [
    Member("workflows"),
    EachItem,
    Member("steps"),
    EachItem,
    Member("workflowId"),
];

const WORKFLOW_ID: [Way<'static>; 1] = [Member("workflowId")];

fn first_lost_workflow(
    alloc: Global,
    workflows: &TextSet,
    root: &Json,
) -> Result<Option<Place>, AllocError>
    requires { has_form root.now ≡ true }
    ensures { IfOk result (λ p. tokens_in p ≡ least (lost_workflows_by (has workflows.now) root.now)) }
{
    let known = Among { set: workflows };
    let depends = first_at(alloc, &DEPENDS, &known, root)?;
    let runs = first_at(alloc, &RUNS, &known, root)?;
    let target = Below {
        ways: &WORKFLOW_ID,
        check: &known,
    };
    let actions = first_in_actions(alloc, &target, root)?;
    let named = lesser(depends, runs);
    Ok(lesser(named, actions))
}

/// An operationId names no source that isn't there.
#[derive(Drop)]
struct KnownId<'s, 'a> {
    sources: &'s TextSet<'a>,
}

impl<'s, 'a> Check for KnownId<'s, 'a> {
    ghost use Rattle.arz_rules.specs.Sets.{has, bad_text};
    ghost use Rattle.arz_sites.specs.Texts.{source_and_id};
    ghost use Rattle.arz_names.specs.Names.{names_known};

    ghost places = { λ c. bad_text (λ s. names_known (has c.sources.now) (source_and_id s)) };

    fn first(&self, alloc: Global, tree: &Json) -> Result<Option<Place>, AllocError> {
        let Json::Text(text) = tree else {
            return Ok(None);
        };
        match source_and_id(text.as_str()) {
            Some((source, _)) => Ok(root_unless(alloc, self.sources.has(source))),
            None => Ok(None),
        }
    }
}

/// An operationPath names no source that isn't there.
#[derive(Drop)]
struct KnownPath<'s, 'a> {
    sources: &'s TextSet<'a>,
}

impl<'s, 'a> Check for KnownPath<'s, 'a> {
    ghost use Rattle.arz_rules.specs.Sets.{has, bad_text};
    ghost use Rattle.arz_sites.specs.Texts.{source_and_pointer};
    ghost use Rattle.arz_names.specs.Names.{names_known};

    ghost places = { λ c. bad_text (λ s. names_known (has c.sources.now) (source_and_pointer s)) };

    fn first(&self, alloc: Global, tree: &Json) -> Result<Option<Place>, AllocError> {
        let Json::Text(text) = tree else {
            return Ok(None);
        };
        match source_and_pointer(text.as_str()) {
            Some((source, _)) => Ok(root_unless(alloc, self.sources.has(source))),
            None => Ok(None),
        }
    }
}

const SOURCE_TYPES: [Way<'static>; 3] = [Member("sourceDescriptions"), EachItem, Member("type")];

const OPERATION_IDS: [Way<'static>; 5] = [
    Member("workflows"),
    EachItem,
    Member("steps"),
    EachItem,
    Member("operationId"),
];

const OPERATION_PATHS: [Way<'static>; 5] = [
    Member("workflows"),
    EachItem,
    Member("steps"),
    EachItem,
    Member("operationPath"),
];

fn first_lost_source(
    alloc: Global,
    sources: &TextSet,
    root: &Json,
) -> Result<Option<Place>, AllocError>
    requires { has_form root.now ≡ true }
    ensures { IfOk result (λ p. tokens_in p ≡ least (lost_sources_by (has sources.now) root.now)) }
{
    let types = first_at(alloc, &SOURCE_TYPES, &Wanted::NotArazzo, root)?;
    let ids = first_at(alloc, &OPERATION_IDS, &KnownId { sources }, root)?;
    let paths = first_at(alloc, &OPERATION_PATHS, &KnownPath { sources }, root)?;
    let named = lesser(types, ids);
    Ok(lesser(named, paths))
}

fn is_input(components: &Components, text: &str) -> bool
    ensures { result ≡ input_there (finds components.now) text.now }
{
    match input_name(text) {
        Some(name) => components.find(Part::Inputs, name).is_some(),
        None => true,
    }
}

/// A reference to inputs names those that are there.
#[derive(Drop)]
struct KnownInputs<'s, 'a> {
    components: &'s Components<'a>,
}

impl<'s, 'a> Check for KnownInputs<'s, 'a> {
    ghost use Rattle.arz_rules.specs.Sets.{bad_text};
    ghost use Rattle.arz_components.specs.Indexes.{finds};
    ghost use Rattle.arz_names.specs.Names.{is_input};

    ghost places = { λ c. bad_text (is_input (finds c.components.now)) };

    fn first(&self, alloc: Global, tree: &Json) -> Result<Option<Place>, AllocError> {
        let components = self.components;
        match tree {
            Json::Text(text) => Ok(root_unless(alloc, is_input(components, text.as_str()))),
            _ => Ok(None),
        }
    }
}

const INPUT_REFERENCES: [Way<'static>; 4] = [
    Member("workflows"),
    EachItem,
    Member("inputs"),
    Member("$ref"),
];

fn first_lost_component(
    alloc: Global,
    components: &Components,
    root: &Json,
) -> Result<Option<Place>, AllocError>
    requires { has_form root.now ≡ true }
    ensures { IfOk result (λ p. tokens_in p ≡ least (lost_components (finds components.now) root.now)) }
{
    let inputs = first_at(alloc, &INPUT_REFERENCES, &KnownInputs { components }, root)?;
    let success = KnownUse {
        components,
        part: Part::SuccessActions,
    };
    let successes = first_at_each(alloc, success_items(), &success, root)?;
    let failure = KnownUse {
        components,
        part: Part::FailureActions,
    };
    let failures = first_at_each(alloc, failure_items(), &failure, root)?;
    let parameter = KnownUse {
        components,
        part: Part::Parameters,
    };
    let givens = first_at_each(alloc, parameters(), &parameter, root)?;
    let first = lesser(inputs, successes);
    let actions = lesser(first, failures);
    Ok(lesser(actions, givens))
}

const WORKFLOWS: [Way<'static>; 2] = [Member("workflows"), EachItem];

const WORKFLOW_IDS: [Way<'static>; 3] = [Member("workflows"), EachItem, Member("workflowId")];

const SOURCE_NAMES: [Way<'static>; 3] = [Member("sourceDescriptions"), EachItem, Member("name")];

fn first_lost_name(
    alloc: Global,
    workflows: &TextSet,
    sources: &TextSet,
    root: &Json,
) -> Result<Option<Place>, AllocError>
    requires { has_form root.now ≡ true }
    ensures { IfOk result (λ p. tokens_in p ≡ least (lost_names_with (has workflows.now) (has sources.now) root.now)) }
{
    let of_workflows = first_lost_workflow(alloc, workflows, root)?;
    let of_sources = first_lost_source(alloc, sources, root)?;
    Ok(lesser(of_workflows, of_sources))
}

fn first_lost_name_of(alloc: Global, root: &Json) -> Result<Option<Place>, AllocError>
    requires { has_form root.now ≡ true }
    ensures { IfOk result (λ p. tokens_in p ≡ least (lost_names_with (is_workflow root.now) (is_source root.now) root.now)) }
{
    let workflows = texts_at(alloc, &WORKFLOW_IDS, root)?;
    let sources = texts_at(alloc, &SOURCE_NAMES, root)?;
    let found = first_lost_name(alloc, &workflows, &sources, root)?;
    Ok(found)
}

/// The least place of a name that names nothing.
pub fn first_lost_reference(
    alloc: Global,
    components: &Components,
    root: &Json,
) -> Result<Option<Place>, AllocError>
    requires { has_form root.now ≡ true }
    ensures { IfOk result (λ p. tokens_in p ≡ least (lost_references (finds components.now) root.now)) }
{
    let names = first_lost_name_of(alloc, root)?;
    let steps = first_at(alloc, &WORKFLOWS, &KnownSteps { components }, root)?;
    let uses = first_lost_component(alloc, components, root)?;
    let named = lesser(names, steps);
    Ok(lesser(named, uses))
}

const WORKFLOW_PARAMETERS: [Way<'static>; 4] = [
    Member("workflows"),
    EachItem,
    Member("parameters"),
    EachItem,
];

const STEPS: [Way<'static>; 4] = [Member("workflows"), EachItem, Member("steps"), EachItem];

const PARAMETERS: [Way<'static>; 2] = [Member("parameters"), EachItem];

/// The least use of a parameter that goes into requests and lacks its place.
pub fn first_placeless_use(
    alloc: Global,
    components: &Components,
    root: &Json,
) -> Result<Option<Place>, AllocError>
    requires { has_form root.now ≡ true }
    ensures { IfOk result (λ p. tokens_in p ≡ least (placeless_uses (finds components.now) root.now)) }
{
    let placed = PlacedUse { components };
    let of_workflows = first_at(alloc, &WORKFLOW_PARAMETERS, &placed, root)?;
    let each = Below {
        ways: &PARAMETERS,
        check: &placed,
    };
    let in_step = UnlessFlow { check: &each };
    let of_steps = first_at(alloc, &STEPS, &in_step, root)?;
    Ok(lesser(of_workflows, of_steps))
}
