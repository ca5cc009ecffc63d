// The operation that a step calls.
ghost use Rattle.std.specs.Prelude.{◌≡◌, ℕ, IfOk, map, option_map, Option, Result, Some};
ghost use Rattle.std.specs.Option.{option_to_list};
ghost use Rattle.std.specs.List.{filter_map};
ghost use Rattle.arz_json.specs.Answer.{Gives};
ghost use Rattle.arz_rules.specs.Phases.{cause};
ghost use Rattle.arz_operation.specs.Named.{Standing};
ghost use Rattle.arz_openapi.specs.Parts.{found as found_at};
ghost use Rattle.arz_description.specs.Calls.{call_of, operation_with, operation_at};
ghost use Rattle.arz_openapi.specs.Called.{with_id as id_search, at_pointer as pointer_search};
ghost use Rattle.arz_openapi.specs.Targets as spec;
ghost use Rattle.arz_openapi.specs.Targets.{seen_at};
ghost use Rattle.arz_sources.specs.Seen.{seen_target};
ghost use Rattle.arz_sources.specs.Served.{seen_source, seen_outcome, outcome_at, asked, asked_named, one_of as one_of_both, only_of, found_in, lost_cause, source_in_map};
ghost use Rattle.arz_sources.specs.declared.calls.Lost.TheVariants.{Memory};

use crate::sources::{Source, Sources};
use arz_components::text_of;
use arz_description::{source_and_id, source_and_pointer};
use arz_json::Json;
use arz_operation::Operation;
use arz_rules::RuleFault;
use std::alloc::{AllocError, Global};

/// An operation that is called.
#[derive(Debug, Drop)]
pub struct Target<'a> {
    /// The operation.
    pub operation: Operation,
    /// The URL that is given for its source, where one is given.
    pub server: Option<&'a str>,
}

/// Why a call has no target.
#[derive(Clone, Copy, Debug, PartialEq, Eq)]
pub(crate) enum Lost {
    /// It fails the rule with this number.
    Rule(u8),
    /// There was not enough memory.
    Memory,
}

impl From<AllocError> for Lost {
    ghost from_gives = { λ _ e. e ≡ Memory };

    fn from(_: AllocError) -> Lost {
        Lost::Memory
    }
}

/// An operation, or the rule that it fails.
type Outcome<'a> = Result<Target<'a>, u8>;

/// What is found in a source, by the answer of its operations.
fn outcome<'a>(
    source: &Source<'a>,
    found: Result<Option<Operation>, RuleFault>,
) -> Result<Option<Outcome<'a>>, AllocError>
    ensures { (s : Option Standing) → Gives (λ o. o) cause found (found_at source.now.operations s) → IfOk result (λ o. option_map seen_outcome o ≡ option_map (outcome_at (seen_source source.now)) s) }
{
    match found {
        Ok(Some(operation)) => Ok(Some(Ok(Target {
            operation,
            server: source.server,
        }))),
        Ok(None) => Ok(None),
        Err(RuleFault::Refused(refusal)) => Ok(Some(Err(refusal.rule))),
        Err(RuleFault::Memory) => Err(AllocError),
    }
}

fn with_id<'a>(
    alloc: Global,
    source: &Source<'a>,
    id: &str,
) -> Result<Option<Outcome<'a>>, AllocError>
    ensures { IfOk result (λ o. option_map seen_outcome o ≡ asked (id_search id.now) (seen_source source.now)) }
{
    outcome(source, source.operations.find_id(alloc, id))
}

fn at_pointer<'a>(
    alloc: Global,
    source: &Source<'a>,
    pointer: &str,
) -> Result<Option<Outcome<'a>>, AllocError>
    ensures { IfOk result (λ o. option_map seen_outcome o ≡ asked (pointer_search pointer.now) (seen_source source.now)) }
{
    outcome(source, source.operations.find_path(alloc, pointer))
}

/// The only outcome, where there is one.
fn only<'a>(outcome: Option<Outcome<'a>>) -> Result<Target<'a>, Lost>
    ensures { Gives seen_target lost_cause result (only_of (option_to_list (option_map seen_outcome outcome.entry))) }
{
    match outcome {
        Some(Ok(target)) => Ok(target),
        Some(Err(rule)) => Err(Lost::Rule(rule)),
        None => Err(Lost::Rule(8)),
    }
}

/// What is found in some sources and in one more.
fn one_of<'a>(
    found: Option<Outcome<'a>>,
    more: Option<Outcome<'a>>,
) -> Result<Option<Outcome<'a>>, Lost>
    ensures { Gives (option_map seen_outcome) lost_cause result (one_of_both (option_map seen_outcome found.entry) (option_map seen_outcome more.entry)) }
{
    match (found, more) {
        (Some(_), Some(_)) => Err(Lost::Rule(17)),
        (Some(outcome), None) => Ok(Some(outcome)),
        (None, other) => Ok(other),
    }
}

/// The operation with an operationId, where one source has it.
fn find_anywhere<'a>(alloc: Global, sources: &[Source<'a>], id: &str) -> Result<Target<'a>, Lost>
    ensures { Gives seen_target lost_cause result (only_of (filter_map (asked (id_search id.now)) (map seen_source sources.now))) }
{
    let mut found = None;
    for source in sources {
        let more = with_id(alloc, source, id)?;
        found = one_of(found, more)?;
    }
    only(found)
}

fn find_id<'s, 'a>(
    alloc: Global,
    sources: &Sources<'s, 'a>,
    name: &str,
    id: &str,
) -> Result<Target<'a>, Lost>
    ensures { Gives seen_target lost_cause result (only_of (asked_named (source_in_map sources.now.names) name.now (id_search id.now))) }
{
    match sources.find(name) {
        Some(source) => only(with_id(alloc, source, id)?),
        None => only(None),
    }
}

fn find_pointer<'s, 'a>(
    alloc: Global,
    sources: &Sources<'s, 'a>,
    name: &str,
    pointer: &str,
) -> Result<Target<'a>, Lost>
    ensures { Gives seen_target lost_cause result (only_of (asked_named (source_in_map sources.now.names) name.now (pointer_search pointer.now))) }
{
    match sources.find(name) {
        Some(source) => only(at_pointer(alloc, source, pointer)?),
        None => only(None),
    }
}

fn some_target<'a>(found: Result<Target<'a>, Lost>) -> Result<Option<Target<'a>>, Lost>
    ensures { (meant : Result spec.Target ℕ) → Gives seen_target lost_cause found.entry meant → Gives (option_map seen_target) lost_cause result (seen_at Some meant) }
{
    match found {
        Ok(target) => Ok(Some(target)),
        Err(lost) => Err(lost),
    }
}

fn called_by_id<'s, 'a>(
    alloc: Global,
    sources: &Sources<'s, 'a>,
    text: &str,
) -> Result<Option<Target<'a>>, Lost>
    ensures { Gives (option_map seen_target) lost_cause result (found_in sources.now (operation_with text.now)) }
{
    match source_and_id(text) {
        Some((name, id)) => some_target(find_id(alloc, sources, name, id)),
        None => some_target(find_anywhere(alloc, sources.list, text)),
    }
}

// A text of another form names no source.
fn called_by_path<'s, 'a>(
    alloc: Global,
    sources: &Sources<'s, 'a>,
    text: &str,
) -> Result<Option<Target<'a>>, Lost>
    ensures { Gives (option_map seen_target) lost_cause result (found_in sources.now (operation_at text.now)) }
{
    match source_and_pointer(text) {
        Some((name, pointer)) => some_target(find_pointer(alloc, sources, name, pointer)),
        None => some_target(find_pointer(alloc, sources, "", text)),
    }
}

/// The operation that a step calls, or none where it calls a workflow.
pub(crate) fn called<'s, 'a>(
    alloc: Global,
    sources: &Sources<'s, 'a>,
    step: &Json,
) -> Result<Option<Target<'a>>, Lost>
    ensures { Gives (option_map seen_target) lost_cause result (found_in sources.now (call_of step.now)) }
{
    if let Some(id) = text_of(step, "operationId") {
        return called_by_id(alloc, sources, id);
    }
    if let Some(path) = text_of(step, "operationPath") {
        return called_by_path(alloc, sources, path);
    }
    Ok(None)
}
