// The rules in order.
ghost use Rattle.std.specs.Prelude.{◌≡◌, ◌≢◌, ◌++◌, ℕ, List, [], Bool, true, codes, IfOk, IsErrOf, option_map};
ghost use Rattle.arz_json.specs.Answer.{Gives};
ghost use Rattle.arz_json.specs.Tree.{has_form};
ghost use Rattle.arz_rules.specs.Place.{least, tokens_in};
ghost use Rattle.arz_rules.specs.Phases.{cause, first_failure, phase};
ghost use Rattle.arz_components.specs.Described.{component};
ghost use Rattle.arz_components.specs.Indexes.{finds};
ghost use Rattle.arz_doc.specs.Cycles.{TellsCycles, tells};
ghost use Rattle.arz_criteria.specs.Rules.{fraction_conditions, patterns_in, TellsReadings};
ghost use Rattle.arz_criteria.specs.Taken.{refuses};
ghost use Rattle.arz_contents.specs.Contents.{fractions};
ghost use Rattle.arz_path.specs.Results.{Asked};
ghost use Rattle.arz_rx.specs.Patterns.{Rose};
ghost use Rattle.arz_doc.specs.Order.{whole_rules, wrong_shapes, shape_rules, naming_rules, value_rules, judged_rules, sending_rules, name_rules, rules_before, rules_from, content_rules, rules_with, rules as rules_of, seen_failure};

use crate::cycles::{Cycles, first_circular};
use arz_components::Components;
use arz_contents::{
    first_bad_expression, first_bad_header, first_bad_media_type, first_fraction, first_over_limit,
    first_type_object, first_xpath,
};
use arz_criteria::{
    Readings, first_bad_condition, first_bad_path, first_bad_pattern, first_fraction_condition,
};
use arz_json::{Json, Place};
use arz_names::{
    first_bad_version, first_duplicate, first_lost_reference, first_mixture, first_placeless_use,
    first_wrong_name,
};
use arz_rules::{Kind, RuleFault, first_miss, lesser, refuse};
use arz_rx::{Patterns, SearchFault};
use std::alloc::{AllocError, Global};

/// A rule that a description fails, and the least place at which it fails it.
#[derive(Debug, Drop)]
pub struct Failure {
    /// The rule's number.
    pub rule: u8,
    /// The place.
    pub place: Place,
}

fn first_wrong_shape(
    alloc: Global,
    components: &Components,
    root: &Json,
) -> Result<Option<Place>, AllocError>
    requires { has_form root.now ≡ true }
    ensures { IfOk result (λ p. tokens_in p ≡ least (wrong_shapes (finds components.now) root.now)) }
{
    let own = first_miss(alloc, root, Kind::Description)?;
    let uses = first_placeless_use(alloc, components, root)?;
    Ok(lesser(own, uses))
}

fn first_of_shape(
    alloc: Global,
    components: &Components,
    root: &Json,
) -> Result<Option<Failure>, AllocError>
    requires { has_form root.now ≡ true }
    ensures { IfOk result (λ f. option_map seen_failure f ≡ first_failure (shape_rules (finds components.now) root.now)) }
{
    if let Some(place) = first_wrong_shape(alloc, components, root)? {
        return Ok(Some(Failure { rule: 3, place }));
    }
    if let Some(place) = first_bad_version(alloc, root)? {
        return Ok(Some(Failure { rule: 4, place }));
    }
    if let Some(place) = first_wrong_name(alloc, root)? {
        return Ok(Some(Failure { rule: 5, place }));
    }
    Ok(None)
}

fn first_of_naming(
    alloc: Global,
    components: &Components,
    cycles: &Cycles,
    root: &Json,
) -> Result<Option<Failure>, AllocError>
    requires { has_form root.now ≡ true }
    ensures { IfOk result (λ f. option_map seen_failure f ≡ first_failure (naming_rules (finds components.now) (tells cycles.now) root.now)) }
{
    if let Some(place) = first_duplicate(alloc, components, root)? {
        return Ok(Some(Failure { rule: 6, place }));
    }
    if let Some(place) = first_mixture(alloc, root)? {
        return Ok(Some(Failure { rule: 7, place }));
    }
    if let Some(place) = first_lost_reference(alloc, components, root)? {
        return Ok(Some(Failure { rule: 8, place }));
    }
    if let Some(place) = first_circular(alloc, cycles, root)? {
        return Ok(Some(Failure { rule: 9, place }));
    }
    Ok(None)
}

fn first_of_values(alloc: Global, root: &Json) -> Result<Option<Failure>, AllocError>
    requires { has_form root.now ≡ true }
    ensures { IfOk result (λ f. option_map seen_failure f ≡ first_failure (value_rules root.now)) }
{
    if let Some(place) = first_xpath(alloc, root)? {
        return Ok(Some(Failure { rule: 10, place }));
    }
    if let Some(place) = first_type_object(alloc, root)? {
        return Ok(Some(Failure { rule: 11, place }));
    }
    if let Some(place) = first_fraction(alloc, root)? {
        return Ok(Some(Failure { rule: 12, place }));
    }
    if let Some(place) = first_bad_expression(alloc, root)? {
        return Ok(Some(Failure { rule: 13, place }));
    }
    Ok(None)
}

fn first_of_sending(alloc: Global, root: &Json) -> Result<Option<Failure>, AllocError>
    requires { has_form root.now ≡ true }
    ensures { IfOk result (λ f. option_map seen_failure f ≡ first_failure (sending_rules root.now)) }
{
    if let Some(place) = first_bad_header(alloc, root)? {
        return Ok(Some(Failure { rule: 22, place }));
    }
    if let Some(place) = first_bad_media_type(alloc, root)? {
        return Ok(Some(Failure { rule: 23, place }));
    }
    if let Some(place) = first_over_limit(alloc, root)? {
        return Ok(Some(Failure { rule: 24, place }));
    }
    Ok(None)
}

fn first_of_names(
    alloc: Global,
    components: &Components,
    cycles: &Cycles,
    root: &Json,
) -> Result<Option<Failure>, AllocError>
    requires { has_form root.now ≡ true }
    ensures { IfOk result (λ f. option_map seen_failure f ≡ first_failure (name_rules (finds components.now) (tells cycles.now) root.now)) }
{
    if let Some(failure) = first_of_shape(alloc, components, root)? {
        return Ok(Some(failure));
    }
    let later = first_of_naming(alloc, components, cycles, root)?;
    Ok(later)
}

fn first_of_contents(alloc: Global, root: &Json) -> Result<Option<Failure>, AllocError>
    requires { has_form root.now ≡ true }
    ensures { IfOk result (λ f. option_map seen_failure f ≡ first_failure (content_rules root.now)) }
{
    if let Some(failure) = first_of_values(alloc, root)? {
        return Ok(Some(failure));
    }
    let later = first_of_sending(alloc, root)?;
    Ok(later)
}

fn first_with(
    alloc: Global,
    components: &Components,
    cycles: &Cycles,
    root: &Json,
) -> Result<Option<Failure>, AllocError>
    requires { has_form root.now ≡ true }
    ensures { IfOk result (λ f. option_map seen_failure f ≡ first_failure (rules_with (finds components.now) (tells cycles.now) root.now)) }
{
    if let Some(failure) = first_of_names(alloc, components, cycles, root)? {
        return Ok(Some(failure));
    }
    let later = first_of_contents(alloc, root)?;
    Ok(later)
}

/// The least rule that a description fails by itself, and its least place. The numbers are those of the rules for
/// documents.
pub fn first_refusal(alloc: Global, root: &Json) -> Result<Option<Failure>, AllocError>
    requires { has_form root.now ≡ true }
    ensures { IfOk result (λ f. (is_cyclic : ℕ → Bool) × TellsCycles root.now is_cyclic × (option_map seen_failure f ≡ first_failure (rules_of is_cyclic root.now))) }
{
    let components = Components::of(alloc, root)?;
    let cycles = Cycles::of(alloc, root)?;
    let found = first_with(alloc, &components, &cycles, root)?;
    Ok(found)
}

// A number that isn't kept, or a condition or a query with a fraction.
fn first_unkept(alloc: Global, root: &Json) -> Result<Option<Place>, AllocError>
    requires { has_form root.now ≡ true }
    ensures { IfOk result (λ p. tokens_in p ≡ least (fractions root.now ++ fraction_conditions root.now)) }
{
    let value = first_fraction(alloc, root)?;
    let condition = first_fraction_condition(alloc, root)?;
    Ok(lesser(value, condition))
}

fn first_of_judged(alloc: Global, root: &Json) -> Result<Option<Failure>, AllocError>
    requires { has_form root.now ≡ true }
    ensures { IfOk result (λ f. option_map seen_failure f ≡ first_failure (judged_rules root.now)) }
{
    if let Some(place) = first_xpath(alloc, root)? {
        return Ok(Some(Failure { rule: 10, place }));
    }
    if let Some(place) = first_type_object(alloc, root)? {
        return Ok(Some(Failure { rule: 11, place }));
    }
    if let Some(place) = first_unkept(alloc, root)? {
        return Ok(Some(Failure { rule: 12, place }));
    }
    if let Some(place) = first_bad_expression(alloc, root)? {
        return Ok(Some(Failure { rule: 13, place }));
    }
    if let Some(place) = first_bad_condition(alloc, root)? {
        return Ok(Some(Failure { rule: 14, place }));
    }
    if let Some(place) = first_bad_path(alloc, root)? {
        return Ok(Some(Failure { rule: 15, place }));
    }
    Ok(None)
}

fn first_judged(
    alloc: Global,
    components: &Components,
    cycles: &Cycles,
    root: &Json,
) -> Result<Option<Failure>, AllocError>
    requires { has_form root.now ≡ true }
    ensures { IfOk result (λ f. option_map seen_failure f ≡ first_failure (rules_before (finds components.now) (tells cycles.now) root.now)) }
{
    if let Some(failure) = first_of_names(alloc, components, cycles, root)? {
        return Ok(Some(failure));
    }
    let later = first_of_judged(alloc, root)?;
    Ok(later)
}

// Of the rules before that of patterns.
fn first_before_patterns(alloc: Global, root: &Json) -> Result<Option<Failure>, AllocError>
    requires { has_form root.now ≡ true }
    ensures { IfOk result (λ f. (is_cyclic : ℕ → Bool) × TellsCycles root.now is_cyclic × (option_map seen_failure f ≡ first_failure (rules_before (component root.now) is_cyclic root.now))) }
{
    let components = Components::of(alloc, root)?;
    let cycles = Cycles::of(alloc, root)?;
    let found = first_judged(alloc, &components, &cycles, root)?;
    Ok(found)
}

#[tactic(auto, unfolding(crate::specs::Order::rules_from))]
fn first_by_readings(
    alloc: Global,
    readings: &Readings,
    root: &Json,
) -> Result<Option<Failure>, AllocError>
    requires { has_form root.now ≡ true }
    ensures { IfOk result (λ f. option_map seen_failure f ≡ first_failure (rules_from (refuses readings.now) root.now)) }
{
    if let Some(place) = first_bad_pattern(alloc, readings, root)? {
        return Ok(Some(Failure { rule: 16, place }));
    }
    let later = first_of_sending(alloc, root)?;
    Ok(later)
}

// Of the rules from that of patterns on.
fn first_from_patterns<P: Patterns>(
    alloc: Global,
    root: &Json,
    rx: &mut P,
) -> Result<Option<Failure>, SearchFault>
    requires { has_form root.now ≡ true }
    ensures first { IfOk result (λ f. (refuses : List ℕ → Bool) × TellsReadings (P.patterns rx.old).told root.now refuses × (option_map seen_failure f ≡ first_failure (rules_from refuses root.now))) }
    ensures pattern { IsErrOf result SearchFault.TooBig → Rose (P.patterns rx.old).too_big (P.patterns rx.new).too_big }
    ensures asks { IsErrOf result SearchFault.TooBig → patterns_in root.now ≢ [] }
    ensures asked { Asked (P.patterns rx.old) (P.patterns rx.new) }
{
    let readings = Readings::of(alloc, root, rx)?;
    let found = first_by_readings(alloc, &readings, root)?;
    Ok(found)
}

/// The least rule that a description or one of its criteria fails, and its least place. `rx` searches for the patterns
/// of criteria, where no rule before that of patterns fails; `TooBig` comes only where the count of patterns too big has
/// risen, and only where a criterion has a pattern.
pub fn first_refusal_with_criteria<P: Patterns>(
    alloc: Global,
    root: &Json,
    rx: &mut P,
) -> Result<Option<Failure>, SearchFault>
    requires { has_form root.now ≡ true }
    ensures first { IfOk result (λ f. (is_cyclic : ℕ → Bool) × TellsCycles root.now is_cyclic × (refuses : List ℕ → Bool)
        × TellsReadings (P.patterns rx.old).told root.now refuses × (option_map seen_failure f ≡ first_failure (whole_rules is_cyclic refuses root.now))) }
    ensures pattern { IsErrOf result SearchFault.TooBig → Rose (P.patterns rx.old).too_big (P.patterns rx.new).too_big }
    ensures asks { IsErrOf result SearchFault.TooBig → patterns_in root.now ≢ [] }
    ensures asked { Asked (P.patterns rx.old) (P.patterns rx.new) }
{
    if let Some(failure) = first_before_patterns(alloc, root)? {
        return Ok(Some(failure));
    }
    let found = first_from_patterns(alloc, root, rx)?;
    Ok(found)
}

/// Refuses a description that fails a rule by itself: the least rule, at its least place, under the label `arazzo`.
pub fn check(alloc: Global, root: &Json) -> Result<(), RuleFault>
    requires { has_form root.now ≡ true }
    ensures { (is_cyclic : ℕ → Bool) × TellsCycles root.now is_cyclic × Gives (λ u. u) cause result (phase (codes "arazzo") (rules_of is_cyclic root.now) (Ok tt)) }
{
    match first_refusal(alloc, root) {
        Ok(Some(failure)) => Err(refuse(alloc, failure.rule, "arazzo", &failure.place)),
        Ok(None) => Ok(()),
        Err(_) => Err(RuleFault::Memory),
    }
}
