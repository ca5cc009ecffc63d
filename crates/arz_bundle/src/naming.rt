// What a setup names in a description: a workflow, sources, and the inputs of the workflow that is run.
ghost use Rattle.std.specs.Prelude.{◌≡◌, ◌∷◌, [], true, IfOk, IfSome, codes, option_map};
ghost use Rattle.std.specs.Option.{option_copied};
ghost use Rattle.arz_json.specs.Tree.{IsWithin, has_form};
ghost use Rattle.arz_doc.specs.Order.{seen_failure};
ghost use Rattle.arz_flow.specs.Documents.{workflow_named as workflow_with};
ghost use Rattle.arz_rules.specs.Misses.{are_none};
ghost use Rattle.arz_rules.specs.Phases.{first_failure};
ghost use Rattle.arz_rules.specs.Place.{least, tokens_in};
ghost use Rattle.arz_rules.specs.Sets.{has, bad_text, bad_names, bad_names_in};
ghost use Rattle.arz_rules.specs.Sites.{member, each_item, at};
ghost use Rattle.arz_bundle.specs.Naming.{unknown_names, unknown_workflow, unknown_sources, is_given, lacking, gives_all as all_given, schema_run as run_schema, missing_inputs, naming_rules};

use crate::components::{formed_child, schema_of};
use crate::setup::workflow_run;
use arz_doc::Failure;
use arz_json::{Json, Member, Place, items_at, text_at};
use arz_rules::{
    Among, Check, TextSet, Way, below_name, child, first_at, lesser, root_unless, texts_at,
};
use std::alloc::{AllocError, Global};

/// The first rule that a setup fails by what it names in a description, and its least place.
pub(crate) fn first_misnamed(
    alloc: Global,
    setup: &Json,
    description: &Json,
) -> Result<Option<Failure>, AllocError>
    requires setup { IsWithin 127 setup.now }
    requires description { IsWithin 127 description.now }
    ensures { IfOk result (λ f. option_map seen_failure f ≡ first_failure (naming_rules description.now setup.now)) }
{
    if let Some(place) = first_unknown(alloc, setup, description)? {
        return Ok(Some(Failure { rule: 8, place }));
    }
    if let Some(place) = first_missing_input(alloc, setup, description)? {
        return Ok(Some(Failure { rule: 27, place }));
    }
    Ok(None)
}

// ---- a workflow or a source that isn't there

fn first_unknown(
    alloc: Global,
    setup: &Json,
    description: &Json,
) -> Result<Option<Place>, AllocError>
    requires setup { IsWithin 127 setup.now }
    requires description { IsWithin 127 description.now }
    ensures { IfOk result (λ p. tokens_in p ≡ least (unknown_names description.now setup.now)) }
{
    let workflow = first_unknown_workflow(alloc, setup, description)?;
    Ok(lesser(workflow, first_unknown_source(alloc, setup, description)?))
}

fn first_unknown_workflow(
    alloc: Global,
    setup: &Json,
    description: &Json,
) -> Result<Option<Place>, AllocError>
    requires setup { IsWithin 127 setup.now }
    requires description { IsWithin 127 description.now }
    ensures { IfOk result (λ p. tokens_in p ≡ least (unknown_workflow description.now setup.now)) }
{
    let ids = [
        Way::Member("workflows"),
        Way::EachItem,
        Way::Member("workflowId"),
    ];
    let set = texts_at(alloc, &ids, description)?;
    first_at(
        alloc,
        &[Way::Member("workflow")],
        &Among { set: &set },
        setup,
    )
}

fn first_unknown_source(
    alloc: Global,
    setup: &Json,
    description: &Json,
) -> Result<Option<Place>, AllocError>
    requires setup { IsWithin 127 setup.now }
    requires description { IsWithin 127 description.now }
    ensures { IfOk result (λ p. tokens_in p ≡ least (unknown_sources description.now setup.now)) }
{
    let names = [
        Way::Member("sourceDescriptions"),
        Way::EachItem,
        Way::Member("name"),
    ];
    let set = texts_at(alloc, &names, description)?;
    let paths = first_other_key(alloc, &set, "sources", setup)?;
    let servers = first_other_key(alloc, &set, "servers", setup)?;
    let overlays = first_overlaid(alloc, &set, setup)?;
    Ok(lesser(lesser(paths, servers), overlays))
}

// The least name of a member under a name that isn't in the set.
fn first_other_key(
    alloc: Global,
    set: &TextSet<'_>,
    name: &str,
    setup: &Json,
) -> Result<Option<Place>, AllocError>
    requires { IsWithin 127 setup.now }
    ensures { IfOk result (λ p. tokens_in p ≡ least (at (member name.now ∷ []) (bad_names (has set.now)) setup.now)) }
{
    first_at(alloc, &[Way::Member(name)], &NamesAmong { set }, setup)
}

fn first_overlaid(
    alloc: Global,
    set: &TextSet<'_>,
    setup: &Json,
) -> Result<Option<Place>, AllocError>
    requires { IsWithin 127 setup.now }
    ensures { IfOk result (λ p. tokens_in p ≡ least (at (member (codes "overlays") ∷ each_item ∷ member (codes "source") ∷ []) (bad_text (has set.now)) setup.now)) }
{
    let sources = [
        Way::Member("overlays"),
        Way::EachItem,
        Way::Member("source"),
    ];
    first_at(alloc, &sources, &Among { set }, setup)
}

// ---- an input that the workflow requires and the setup doesn't give

fn first_missing_input(
    alloc: Global,
    setup: &Json,
    description: &Json,
) -> Result<Option<Place>, AllocError>
    requires setup { IsWithin 127 setup.now }
    requires description { IsWithin 127 description.now }
    ensures { IfOk result (λ p. tokens_in p ≡ least (missing_inputs description.now setup.now)) }
{
    let gives_all = gives_inputs(alloc, setup, schema_run(setup, description))?;
    let place = below_name(alloc, "inputs", root_unless(alloc, gives_all))?;
    Ok(place)
}

// Whether the setup gives each input that the schema requires.
fn gives_inputs(alloc: Global, setup: &Json, schema: Option<&Json>) -> Result<bool, AllocError>
    requires setup { has_form setup.now ≡ true }
    requires schema { IfSome schema (λ value. has_form value.now ≡ true) }
    ensures { IfOk result (λ gives. gives ≡ all_given setup.now (option_copied schema.entry)) }
{
    match schema {
        Some(schema) => gives_required(alloc, setup, schema),
        None => Ok(true),
    }
}

fn gives_required(alloc: Global, setup: &Json, schema: &Json) -> Result<bool, AllocError>
    requires setup { has_form setup.now ≡ true }
    requires schema { has_form schema.now ≡ true }
    ensures { IfOk result (λ gives. gives ≡ are_none (lacking setup.now schema.now)) }
{
    let names = [Way::Member("required"), Way::EachItem];
    let found = first_at(alloc, &names, &Given { setup }, schema)?;
    Ok(found.is_none())
}

// The schema of the inputs of the workflow that is run.
fn schema_run<'a>(setup: &Json, description: &'a Json) -> Option<&'a Json>
    requires { has_form description.now ≡ true }
    ensures run { option_copied result ≡ run_schema setup.now description.now }
    ensures formed { IfSome result (λ value. has_form value.now ≡ true) }
{
    let workflow = formed_workflow(description, workflow_run(setup, description))?;
    schema_of(description, formed_child(workflow, "inputs")?)
}

// The first workflow with this workflowId, which is in form as the description is.
fn formed_workflow<'a>(description: &'a Json, id: &str) -> Option<&'a Json>
    requires { has_form description.now ≡ true }
    ensures named { option_copied result ≡ workflow_with id.now description.now }
    ensures formed { IfSome result (λ workflow. has_form workflow.now ≡ true) }
{
    workflow_named(description, id)
}

fn workflow_named<'a>(description: &'a Json, id: &str) -> Option<&'a Json>
    ensures { option_copied result ≡ workflow_with id.now description.now }
{
    let workflows = items_at(description, "workflows");
    workflows.iter().find(|w| text_at(w, "workflowId") == id)
}

/// The check that a name is that of an input that a setup gives.
#[derive(Drop)]
struct Given<'s> {
    setup: &'s Json,
    ghost formed: { has_form setup.now ≡ true },
}

impl<'s> Check for Given<'s> {
    ghost use Rattle.arz_rules.specs.Sets.{bad_text};
    ghost use Rattle.arz_bundle.specs.Naming.{is_given};

    ghost places = { λ c. bad_text (is_given c.setup.now) };

    fn first(&self, alloc: Global, tree: &Json) -> Result<Option<Place>, AllocError> {
        Ok(match tree.as_text() {
            Some(name) => root_unless(alloc, gives(self.setup, name)),
            None => None,
        })
    }
}

fn gives(setup: &Json, name: &str) -> bool
    requires { has_form setup.now ≡ true }
    ensures { result ≡ is_given setup.now name.now }
{
    match formed_child(setup, "inputs") {
        Some(inputs) => child(inputs, name).is_some(),
        None => false,
    }
}

// ---- checks

/// The check that each name of an object's members is one of a set.
#[derive(Drop)]
struct NamesAmong<'s, 'a> {
    set: &'s TextSet<'a>,
}

impl<'s, 'a> Check for NamesAmong<'s, 'a> {
    ghost use Rattle.arz_rules.specs.Sets.{has, bad_names};

    ghost places = { λ c. bad_names (has c.set.now) };

    fn first(&self, alloc: Global, tree: &Json) -> Result<Option<Place>, AllocError> {
        match tree.as_object() {
            Some(members) => first_other_name(alloc, self.set, members),
            None => Ok(None),
        }
    }
}

fn first_other_name(
    alloc: Global,
    set: &TextSet<'_>,
    members: &[Member],
) -> Result<Option<Place>, AllocError>
    ensures { IfOk result (λ p. tokens_in p ≡ least (bad_names_in (has set.now) members.now)) }
{
    let mut best = None;
    for member in members {
        let name = member.name.as_str();
        let found = root_unless(alloc, set.has(name));
        best = lesser(best, below_name(alloc, name, found)?);
    }
    Ok(best)
}
