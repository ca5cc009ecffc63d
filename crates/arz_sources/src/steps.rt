// The rules of steps.
ghost use Rattle.std.specs.Prelude.{◌≡◌, ◌||◌, Some, IfOk, Ok, codes, option_map, option_and_then};
ghost use Rattle.std.specs.Option.{is_some};
ghost use Rattle.arz_json.specs.Answer.{Gives};
ghost use Rattle.arz_rules.specs.Phases.{cause, phase, first_failure};
ghost use Rattle.arz_rules.specs.Sets.{has};
ghost use Rattle.arz_rules.specs.Sites.{in_items};
ghost use Rattle.arz_components.specs.Indexes.{finds};
ghost use Rattle.arz_description.specs.Calls.{call_of};
ghost use Rattle.arz_target.specs.Urls.{address_of};
ghost use Rattle.arz_sources.specs.Rules.{gives, naming_member as member_named, is_served as served, at_items, rules_by, rules};
ghost use Rattle.arz_sources.specs.Seen.{seen_target};
ghost use Rattle.arz_sources.specs.Served.{found_in};
ghost use Rattle.arz_sources.specs.Failures.{seen_failure, fails, first_of, target_rule, rule_by, place_at};

use crate::calls::{Lost, Target, called};
use crate::failures::{Failure, below_item, below_member, failure_of, lesser_failure};
use crate::given::{are_given, path_names};
use crate::sources::{Sources, read_sources};
use arz_components::{Components, text_of};
use arz_json::{Json, Named, NamedText, items_at};
use arz_rules::{RuleFault, TextSet, below_name, refuse, root_place};
use arz_target::{names, server_url};
use std::alloc::{AllocError, Global};

fn is_address(url: Option<&str>) -> bool
    ensures { result ≡ is_some (option_and_then address_of (option_map (λ t. t.now) url.entry)) }
{
    match url {
        Some(url) => server_url(url).is_some(),
        None => false,
    }
}

fn url_of<'t>(target: &'t Target) -> Option<&'t str>
    ensures { option_map (λ t. t.now) result ≡ (seen_target target.now).operation.server }
{
    match &target.operation.server {
        Some(url) => Some(url.as_str()),
        None => None,
    }
}

/// Whether the setup gives a URL for the server, or that of the document can be reached.
fn is_served(target: &Target) -> bool
    ensures { result ≡ served (seen_target target.now) }
{
    target.server.is_some() || is_address(url_of(target))
}

fn rule_of_target(
    alloc: Global,
    components: &Components,
    given: &TextSet,
    step: &Json,
    target: &Target,
) -> Result<Option<u8>, AllocError>
    ensures { IfOk result (λ r. r ≡ target_rule (λ name. gives (finds components.now) step.now name || has given.now name) (seen_target target.now)) }
{
    if !is_served(target) {
        return Ok(Some(20));
    }
    let own = path_names(alloc, components, step)?;
    let names = names(alloc, target.operation.path.as_str())?;
    if are_given(&own, given, names.as_slice()) {
        Ok(None)
    } else {
        Ok(Some(21))
    }
}

/// The rule that a step fails, by the names of the parameters in path that its workflow gives.
fn rule_of_step(
    alloc: Global,
    sources: &Sources,
    components: &Components,
    given: &TextSet,
    step: &Json,
) -> Result<Option<u8>, AllocError>
    ensures { IfOk result (λ r. r ≡ rule_by (λ name. gives (finds components.now) step.now name || has given.now name) (found_in sources.now (call_of step.now))) }
{
    match called(alloc, sources, step) {
        Ok(Some(target)) => rule_of_target(alloc, components, given, step, &target),
        Ok(None) => Ok(None),
        Err(Lost::Rule(rule)) => Ok(Some(rule)),
        Err(Lost::Memory) => Err(AllocError),
    }
}

/// The member of a step that names the operation.
fn naming_member(step: &Json) -> &'static str
    ensures { result.now ≡ member_named step.now }
{
    if text_of(step, "operationId").is_some() {
        "operationId"
    } else {
        "operationPath"
    }
}

fn failure_at(alloc: Global, rule: u8, step: &Json) -> Result<Option<Failure>, AllocError>
    ensures { IfOk result (λ f. option_map seen_failure f ≡ Some (rule, place_at rule step.now)) }
{
    let here = Some(root_place(alloc));
    if 20 <= rule {
        return Ok(failure_of(rule, here));
    }
    let place = below_name(alloc, naming_member(step), here)?;
    Ok(failure_of(rule, place))
}

fn first_in_step(
    alloc: Global,
    sources: &Sources,
    components: &Components,
    given: &TextSet,
    step: &Json,
) -> Result<Option<Failure>, AllocError>
    ensures { IfOk result (λ f. option_map seen_failure f ≡ first_of (λ rule. fails rule (found_in sources.now) (finds components.now) (has given.now) step.now)) }
{
    let Some(rule) = rule_of_step(alloc, sources, components, given, step)? else {
        return Ok(None);
    };
    let found = failure_at(alloc, rule, step)?;
    Ok(found)
}

fn first_in_steps(
    alloc: Global,
    sources: &Sources,
    components: &Components,
    given: &TextSet,
    steps: &[Json],
) -> Result<Option<Failure>, AllocError>
    ensures { IfOk result (λ f. option_map seen_failure f ≡ first_of (λ rule. in_items (fails rule (found_in sources.now) (finds components.now) (has given.now)) 0 steps.now)) }
{
    let mut best = None;
    for (i, step) in steps.iter().enumerate() {
        let found = first_in_step(alloc, sources, components, given, step)?;
        best = lesser_failure(best, below_item(i, found)?);
    }
    Ok(best)
}

fn first_in_workflow(
    alloc: Global,
    sources: &Sources,
    components: &Components,
    workflow: &Json,
) -> Result<Option<Failure>, AllocError>
    ensures { IfOk result (λ f. option_map seen_failure f ≡ first_of (λ rule. at_items (codes "steps") (fails rule (found_in sources.now) (finds components.now) (gives (finds components.now) workflow.now)) workflow.now)) }
{
    let given = path_names(alloc, components, workflow)?;
    let steps = items_at(workflow, "steps");
    let found = first_in_steps(alloc, sources, components, &given, steps)?;
    let placed = below_member(alloc, "steps", found)?;
    Ok(placed)
}

fn first_in_workflows(
    alloc: Global,
    sources: &Sources,
    components: &Components,
    workflows: &[Json],
) -> Result<Option<Failure>, AllocError>
    ensures { IfOk result (λ f. option_map seen_failure f ≡ first_of (λ rule. in_items (λ workflow. at_items (codes "steps") (fails rule (found_in sources.now) (finds components.now) (gives (finds components.now) workflow)) workflow) 0 workflows.now)) }
{
    let mut best = None;
    for (i, workflow) in workflows.iter().enumerate() {
        let found = first_in_workflow(alloc, sources, components, workflow)?;
        best = lesser_failure(best, below_item(i, found)?);
    }
    Ok(best)
}

fn first_by(
    alloc: Global,
    sources: &Sources,
    components: &Components,
    description: &Json,
) -> Result<Option<Failure>, AllocError>
    ensures { IfOk result (λ f. option_map seen_failure f ≡ first_failure (rules_by (found_in sources.now) (finds components.now) description.now)) }
{
    let workflows = items_at(description, "workflows");
    let found = first_in_workflows(alloc, sources, components, workflows)?;
    let placed = below_member(alloc, "workflows", found)?;
    Ok(placed)
}

fn first_refusal(
    alloc: Global,
    description: &Json,
    sources: &[Named],
    servers: &[NamedText],
) -> Result<Option<Failure>, AllocError>
    ensures { IfOk result (λ f. option_map seen_failure f ≡ first_failure (rules description.now sources.now servers.now)) }
{
    let list = read_sources(alloc, sources, servers)?;
    let sources = Sources::of(alloc, list.as_slice())?;
    let components = Components::of(alloc, description)?;
    let found = first_by(alloc, &sources, &components, description)?;
    Ok(found)
}

/// Refuses a description (Arazzo 1.0.1, section 4.6) of which a step fails a rule against the source documents: the
/// least rule, at its least place, under the label `arazzo`. The sources stand under their names in the description;
/// `servers` has the URLs of servers that the setup gives, each under the name of its source.
pub fn check_steps(
    alloc: Global,
    description: &Json,
    sources: &[Named],
    servers: &[NamedText],
) -> Result<(), RuleFault>
    ensures { Gives (λ u. u) cause result (phase (codes "arazzo") (rules description.now sources.now servers.now) (Ok tt)) }
{
    match first_refusal(alloc, description, sources, servers) {
        Ok(Some(failure)) => Err(refuse(alloc, failure.rule, "arazzo", &failure.place)),
        Ok(None) => Ok(()),
        Err(_) => Err(RuleFault::Memory),
    }
}
