// Rules that fail, and where.
ghost use Rattle.std.specs.Prelude.{◌≡◌, Some, IfOk, option_map};
ghost use Rattle.arz_json.specs.declared.place.Token.TheVariants.{Name, Index};
ghost use Rattle.arz_rules.specs.Place.{tokens_in};
ghost use Rattle.arz_sources.specs.Failures.{seen_failure, placed, lesser_of, lesser_failure as lesser_of_both, under_failure};

use arz_json::Place;
use arz_rules::{below_index, below_name, lesser};
use std::alloc::{AllocError, Global};

/// A rule that fails, and the least place at which it does.
#[derive(Debug, Drop)]
pub(crate) struct Failure {
    /// The rule's number.
    pub rule: u8,
    /// The place.
    pub place: Place,
}

/// A failure at a place, where there is one.
pub(crate) fn failure_of(rule: u8, place: Option<Place>) -> Option<Failure>
    ensures { option_map seen_failure result ≡ placed rule (tokens_in place) }
{
    match place {
        Some(place) => Some(Failure { rule, place }),
        None => None,
    }
}

fn lesser_of_two(left: Failure, right: Failure) -> Option<Failure>
    ensures { option_map seen_failure result ≡ lesser_of (seen_failure left) (seen_failure right) }
{
    if left.rule == right.rule {
        return failure_of(left.rule, lesser(Some(left.place), Some(right.place)));
    }
    Some(if right.rule < left.rule { right } else { left })
}

/// The failure of the lesser rule; of one rule, that at the lesser place.
pub(crate) fn lesser_failure(left: Option<Failure>, right: Option<Failure>) -> Option<Failure>
    ensures { option_map seen_failure result ≡ lesser_of_both (option_map seen_failure left) (option_map seen_failure right) }
{
    match (left, right) {
        (Some(left), Some(right)) => lesser_of_two(left, right),
        (Some(left), None) => Some(left),
        (None, other) => other,
    }
}

/// The same failure, if any, seen from the list that it lies in, under the item at this index.
pub(crate) fn below_item(
    index: usize,
    found: Option<Failure>,
) -> Result<Option<Failure>, AllocError>
    ensures { IfOk result (λ f. option_map seen_failure f ≡ under_failure (Index index) (option_map seen_failure found)) }
{
    match found {
        Some(found) => Ok(failure_of(found.rule, below_index(index, Some(found.place))?)),
        None => Ok(None),
    }
}

/// The same failure, if any, seen from the object that it lies in, under the member with this name.
pub(crate) fn below_member(
    alloc: Global,
    name: &str,
    found: Option<Failure>,
) -> Result<Option<Failure>, AllocError>
    ensures { IfOk result (λ f. option_map seen_failure f ≡ under_failure (Name name.now) (option_map seen_failure found)) }
{
    match found {
        Some(found) => Ok(failure_of(found.rule, below_name(alloc, name, Some(found.place))?)),
        None => Ok(None),
    }
}
