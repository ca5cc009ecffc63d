// What steps call.
ghost use Rattle.std.specs.Prelude.{◌≡◌, IfOk, map, option_map};
ghost use Rattle.arz_description.specs.Calls.{call_of};
ghost use Rattle.arz_openapi.specs.Targets.{target_if, targets as targets_of};
ghost use Rattle.arz_sources.specs.Seen.{seen_target};
ghost use Rattle.arz_sources.specs.Served.{found_in};

use crate::calls::{Lost, Target, called};
use crate::sources::{Sources, read_sources};
use arz_json::{Json, Named, NamedText};
use std::alloc::{AllocError, Global};

/// The operation that a step calls, with the URL that is given for its source; none where the step calls a workflow, or
/// its call fails a rule (Arazzo 1.0.1, section 4.6.5).
pub fn target_of<'s, 'a>(
    alloc: Global,
    sources: &Sources<'s, 'a>,
    step: &Json,
) -> Result<Option<Target<'a>>, AllocError>
    ensures { IfOk result (λ t. option_map seen_target t ≡ target_if (found_in sources.now (call_of step.now))) }
{
    match called(alloc, sources, step) {
        Ok(target) => Ok(target),
        Err(Lost::Rule(_)) => Ok(None),
        Err(Lost::Memory) => Err(AllocError),
    }
}

/// The operation of the source documents that each of these steps calls, in order, with the URL that is given for its
/// source; none where a step calls a workflow, or its call fails a rule (Arazzo 1.0.1, section 4.6.5). The sources stand
/// under their names in the description; `servers` has the URLs that are given, each under the name of its source.
pub fn find_targets<'a>(
    alloc: Global,
    sources: &'a [Named],
    servers: &'a [NamedText],
    steps: &[Json],
) -> Result<Vec<Option<Target<'a>>>, AllocError>
    ensures { IfOk result (λ found. map (option_map seen_target) found.items ≡ map (λ step. target_if (targets_of sources.now servers.now (call_of step))) steps.now) }
{
    let list = read_sources(alloc, sources, servers)?;
    let sources = Sources::of(alloc, list.as_slice())?;
    let mut found = Vec::with_capacity(alloc, steps.len())?;
    for step in steps {
        found.push(target_of(alloc, &sources, step)?)?;
    }
    Ok(found)
}
