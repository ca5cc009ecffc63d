// The rules of a document by themselves.
ghost use Rattle.std.specs.Prelude.{◌≡◌, [], ◌∷◌, true, IfOk, Ok, option_map};
ghost use Rattle.arz_json.specs.Answer.{Gives};
ghost use Rattle.arz_json.specs.Tree.{has_form};
ghost use Rattle.arz_rules.specs.Place.{least, tokens_in};
ghost use Rattle.arz_rules.specs.Phases.{cause, first_failure, phase};
ghost use Rattle.arz_openapi.specs.Rules.{wrong_shapes, wrong_version, repeated_ids, rules, seen_failure};

use crate::behind::first_behind_paths;
use crate::ids::first_repeat;
use crate::sites::sites;
use arz_json::{Json, Place};
use arz_rules::Way::Member;
use arz_rules::{BadVersion, Kind, RuleFault, Way, first_at, first_miss, lesser, refuse};
use std::alloc::{AllocError, Global};

const VERSION: [Way<'static>; 1] = [Member("openapi")];

fn first_wrong_shape(alloc: Global, root: &Json) -> Result<Option<Place>, AllocError>
    ensures { IfOk result (λ p. tokens_in p ≡ least (wrong_shapes root.now)) }
{
    let own = first_miss(alloc, root, Kind::OpenApi)?;
    let items = first_behind_paths(alloc, root)?;
    Ok(lesser(own, items))
}

fn first_wrong_version(alloc: Global, root: &Json) -> Result<Option<Place>, AllocError>
    requires { has_form root.now ≡ true }
    ensures { IfOk result (λ p. tokens_in p ≡ least (wrong_version root.now)) }
{
    first_at(alloc, &VERSION, &BadVersion { prefix: "3.1." }, root)
}

fn first_repeated_id(alloc: Global, root: &Json) -> Result<Option<Place>, AllocError>
    ensures { IfOk result (λ p. tokens_in p ≡ least (repeated_ids root.now)) }
{
    let sites = sites(alloc, root)?;
    let found = first_repeat(alloc, sites.as_slice())?;
    Ok(found)
}

/// A rule that a document fails, and the least place at which it fails it.
#[derive(Debug, Drop)]
pub(crate) struct Failure {
    /// The rule's number.
    pub rule: u8,
    /// The place.
    pub place: Place,
}

fn first_refusal(alloc: Global, root: &Json) -> Result<Option<Failure>, AllocError>
    requires { has_form root.now ≡ true }
    ensures { IfOk result (λ f. option_map seen_failure f ≡ first_failure (rules root.now)) }
{
    if let Some(place) = first_wrong_shape(alloc, root)? {
        return Ok(Some(Failure { rule: 3, place }));
    }
    if let Some(place) = first_wrong_version(alloc, root)? {
        return Ok(Some(Failure { rule: 4, place }));
    }
    if let Some(place) = first_repeated_id(alloc, root)? {
        return Ok(Some(Failure { rule: 6, place }));
    }
    Ok(None)
}

/// Refuses an OpenAPI document (OpenAPI 3.1.0, section 4.8) that fails a rule by itself: the least rule, at its least
/// place, under an empty label. The parameters and bodies of operations aren't looked at.
pub fn check(alloc: Global, root: &Json) -> Result<(), RuleFault>
    requires { has_form root.now ≡ true }
    ensures { Gives (λ u. u) cause result (phase [] (rules root.now) (Ok tt)) }
{
    match first_refusal(alloc, root) {
        Ok(Some(failure)) => Err(refuse(alloc, failure.rule, "", &failure.place)),
        Ok(None) => Ok(()),
        Err(_) => Err(RuleFault::Memory),
    }
}
