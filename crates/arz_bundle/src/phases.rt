// The phases that look at several documents.
ghost use Rattle.std.specs.Prelude.{◌≡◌, ℕ, nat_le, Option, None, true, codes, option_map};
ghost use Rattle.arz_json.specs.Tree.{IsWithin};
ghost use Rattle.arz_json.specs.declared.Refusal.{Refusal};
ghost use Rattle.arz_doc.specs.Order.{seen_failure};
ghost use Rattle.arz_rules.specs.Phases.{failure_or};
ghost use Rattle.arz_rules.specs.Place.{tokens_in};
ghost use Rattle.arz_path.specs.Results.{Asked};
ghost use Rattle.arz_bundle.specs.FileTree.{Checks, JudgesDescription, seen_refusal, labelled};
ghost use Rattle.arz_start.specs.Lengths.{Measures};
ghost use Rattle.arz_bundle.specs.Phases.{earlier, unbuilt_told, steps_against, start_limit, size_told};

use crate::fault::LoadFault;
use crate::naming::first_misnamed;
use crate::unbuilt::first_unbuilt_of_description;
use arz_doc::{Failure, first_refusal_with_criteria};
use arz_flow::Bundle;
use arz_json::{Json, Named, NamedText};
use arz_rules::{RuleFault, refuse, refuse_if, root_unless};
use arz_rx::Patterns;
use arz_sources::check_steps;
use arz_start::start_length;
use std::alloc::Global;

/// Looks at the rules of a description and its criteria, together with those of what a setup names in it. `Pattern` comes
/// only where the count of patterns too big has risen, and a criterion has a pattern.
pub(crate) fn check_description<P: Patterns>(
    alloc: Global,
    setup: &Json,
    description: &Json,
    rx: &mut P,
) -> Result<(), LoadFault>
    requires setup { IsWithin 127 setup.now }
    requires description { IsWithin 127 description.now }
    ensures judges { JudgesDescription (P.patterns rx.old) (P.patterns rx.new) setup.now description.now result }
    ensures asked { Asked (P.patterns rx.old) (P.patterns rx.new) }
{
    let named = first_misnamed(alloc, setup, description)?;
    let own = first_refusal_with_criteria(alloc, description, rx)?;
    refuse_earlier(alloc, named, own)?;
    Ok(())
}

/// Looks at what isn't built yet in a description.
pub(crate) fn check_built(alloc: Global, description: &Json) -> Result<(), RuleFault>
    requires { IsWithin 127 description.now }
    ensures { Checks (unbuilt_told description.now) result }
{
    refuse_if(
        alloc,
        0,
        "arazzo",
        first_unbuilt_of_description(alloc, description)?,
    )
}

/// Looks at the steps of a description, against the sources that they call.
pub(crate) fn check_calls(
    alloc: Global,
    description: &Json,
    sources: &[Named],
    servers: &[NamedText],
) -> Result<(), RuleFault>
    ensures { Checks (steps_against description.now sources.now servers.now) result }
{
    check_steps(alloc, description, sources, servers)
}

/// Looks at the size of a bundle: its tree in the wire form, with which a journal begins.
#[tactic(auto, unfolding(crate::specs::Phases::size_told))]
pub(crate) fn check_size(alloc: Global, bundle: &Bundle) -> Result<(), RuleFault>
    ensures { Checks (size_told bundle.now) result }
{
    let length = start_length(alloc, bundle)?;
    refuse_if(alloc, 24, "setup", root_unless(alloc, is_in_limit(length)))
}

fn is_in_limit(length: Option<u64>) -> bool
    ensures { (n : ℕ) → Measures length n → result ≡ nat_le n start_limit }
{
    match length {
        Some(length) => length <= 67_108_864,
        None => false,
    }
}

// Refuses the setup or the description, where one fails a rule.
fn refuse_earlier(
    alloc: Global,
    setup: Option<Failure>,
    description: Option<Failure>,
) -> Result<(), RuleFault>
    ensures { Checks (earlier (seen_refusal (codes "setup") setup) (seen_refusal (codes "arazzo") description)) result }
{
    match earlier_failure(setup, description) {
        Some((label, failure)) => Err(refuse(alloc, failure.rule, label, &failure.place)),
        None => Ok(()),
    }
}

// The failure of the lesser rule, and of one rule the setup's, with the document's label.
fn earlier_failure(
    setup: Option<Failure>,
    description: Option<Failure>,
) -> Option<(&'static str, Failure)>
    ensures { option_map labelled result ≡ earlier (seen_refusal (codes "setup") setup) (seen_refusal (codes "arazzo") description) }
{
    match (setup, description) {
        (Some(failure), Some(other)) => {
            if failure.rule <= other.rule {
                Some(("setup", failure))
            } else {
                Some(("arazzo", other))
            }
        }
        (Some(failure), None) => Some(("setup", failure)),
        (None, Some(other)) => Some(("arazzo", other)),
        (None, None) => None,
    }
}
