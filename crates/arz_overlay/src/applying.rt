// Applying an overlay.
ghost use Rattle.std.specs.Prelude.{◌≡◌, ◌≢◌, ◌≤◌, max, map, true, Some, Ok, Err, IfOk, IfErr, Result};
ghost use Rattle.std.specs.List.{list_all};
ghost use Rattle.arz_json.specs.Answer.{Fails, Gives};
ghost use Rattle.arz_json.specs.Tree.{has_form, all_true, depth, IsWithin, IsWellFormed};
ghost use Rattle.arz_json.specs.declared.tree.Json.{Json as Tree};
ghost use Rattle.arz_json.specs.declared.tree.Refusal.{Refusal};
ghost use Rattle.arz_path.specs.Results.{Asked};
ghost use Rattle.arz_rules.specs.Phases.{refusal};
ghost use Rattle.arz_overlay.specs.Applied.{Applies, Keeps, refusal_in, told_at, tree_of_work};
ghost use Rattle.arz_overlay.specs.Documents.{action_place, target_of, is_query};
ghost use Rattle.arz_changes.specs.Groups.{places_seen};
ghost use Rattle.arz_overlay.specs.Overlaid.{overlaid, overlaid_from, done, after_action};
ghost use Rattle.arz_overlay.specs.Steps.{done_at as done_at_places};

use crate::document::Overlay;
use crate::fault::{OverlayFault, StepFault};
use crate::working::{Work, done_at, started};
use arz_json::{Json, Many, Place, Text, Token};
use arz_path::{Query, SelectFault, select};
use arz_rules::refuse;
use arz_rx::Patterns;
use std::alloc::{AllocError, Global};

/// What an overlay makes of a tree (Overlay 1.0.0, section 4.4.3), which stays as it is. `rx` searches for the
/// patterns of targets; nothing is said where a pattern is needed of which nothing is told.
///
/// `Refused` tells the first action at which a rule fails: 24 where its target selects too many places, or where
/// the tree nests deeper than 127 or has more than 33,554,432 bytes of wire form after a merge; 25 where no
/// object or list stands at a selected place; 26 where an object's update is none, or the root is removed.
/// `Pattern` comes only where the count of patterns too big has risen.
///
/// It copies the tree once. Each action takes the time of its selection and of what it changes.
pub fn apply<P: Patterns>(
    alloc: Global,
    overlay: &Overlay,
    root: &Json,
    rx: &mut P,
) -> Result<Json, OverlayFault>
    requires { IsWellFormed root.now }
    ensures applies { Applies (λ j. j) result (overlaid (P.patterns rx.old).told overlay.now root.now) (P.patterns rx.old) (P.patterns rx.new) }
    ensures asked { Asked (P.patterns rx.old) (P.patterns rx.new) }

    // A tree that nests no deeper than those that are read gives one.
    ensures well_formed { IfOk result IsWellFormed }
    ensures nests { IsWithin 127 root.now → IfOk result (IsWithin 127) }
{
    let work = started(alloc, root)?;
    let work = all_acted(
        alloc,
        overlay.label(),
        overlay.actions(),
        overlay.queries(),
        work,
        rx,
    )?;
    Ok(work.tree)
}

// What the actions in order make of the tree.
fn all_acted<P: Patterns>(
    alloc: Global,
    label: &str,
    actions: &[Json],
    queries: &[Query],
    work: Work,
    rx: &mut P,
) -> Result<Work, OverlayFault>
    requires keeps { Keeps work }
    requires form { all_true (map has_form actions.now) ≡ true }
    requires targets { queries.now ≡ map target_of actions.now }
    requires spelled { list_all is_query queries.now ≡ true }
    ensures applies { Applies tree_of_work result (overlaid_from (P.patterns rx.old).told label.now 0 actions.now work.tree) (P.patterns rx.old) (P.patterns rx.new) }
    ensures asked { Asked (P.patterns rx.old) (P.patterns rx.new) }
    ensures keeps { IfOk result Keeps }
    ensures nests { IfOk result (λ w. depth w.tree ≤ max 127 (depth work.tree)) }
{
    let mut work = work;
    for (at, action) in actions.iter().enumerate() {
        work = acted(alloc, label, at, action, &queries[at], work, rx)?;
    }
    Ok(work)
}

// What one action makes of the tree.
fn acted<P: Patterns>(
    alloc: Global,
    label: &str,
    at: usize,
    action: &Json,
    query: &Query,
    work: Work,
    rx: &mut P,
) -> Result<Work, OverlayFault>
    requires keeps { Keeps work }
    requires action { has_form action.now ≡ true }
    requires query { query.now ≡ target_of action.now }
    requires spelled { is_query query.now ≡ true }
    ensures applies { Applies tree_of_work result (after_action label.now at (λ j. Some (Ok j)) (done (P.patterns rx.old).told action.now work.tree)) (P.patterns rx.old) (P.patterns rx.new) }
    ensures asked { Asked (P.patterns rx.old) (P.patterns rx.new) }
    ensures keeps { IfOk result Keeps }
    ensures nests { IfOk result (λ w. depth w.tree ≤ max 127 (depth work.tree)) }
{
    match select(alloc, query, &work.tree, rx) {
        Ok(places) => done_or_refused(alloc, label, at, action, places.as_slice(), work),
        Err(SelectFault::TooWide) => Err(refused(alloc, 24, label, at)),
        Err(SelectFault::Pattern) => Err(OverlayFault::Pattern),
        Err(SelectFault::Memory) => Err(OverlayFault::Memory),
    }
}

fn done_or_refused(
    alloc: Global,
    label: &str,
    at: usize,
    action: &Json,
    places: &[Place],
    work: Work,
) -> Result<Work, OverlayFault>
    requires keeps { Keeps work }
    requires action { has_form action.now ≡ true }
    ensures gives { Gives tree_of_work refusal_in result (told_at label.now at (done_at_places action.now (places_seen places.now) work.tree)) }
    ensures no_pattern { IfErr result (λ e. e ≢ OverlayFault.Pattern) }
    ensures keeps { IfOk result Keeps }
    ensures nests { IfOk result (λ w. depth w.tree ≤ max 127 (depth work.tree)) }
{
    match done_at(alloc, action, places, work) {
        Ok(work) => Ok(work),
        Err(StepFault::Rule(rule)) => Err(refused(alloc, rule, label, at)),
        Err(StepFault::Memory) => Err(OverlayFault::Memory),
    }
}

// The refusal of an action by a rule.
fn refused(alloc: Global, rule: u8, label: &str, at: usize) -> OverlayFault
    ensures gives { Fails (refusal_in result) (let meant : Result Tree Refusal = Err (refusal label.now (rule, action_place at)) in meant) }
    ensures no_pattern { result ≢ OverlayFault.Pattern }
{
    match place_of(alloc, at) {
        Ok(place) => OverlayFault::from(refuse(alloc, rule, label, &place)),
        Err(_) => OverlayFault::Memory,
    }
}

fn place_of(alloc: Global, at: usize) -> Result<Place, AllocError>
    ensures { IfOk result (λ p. p.tokens ≡ action_place at) }
{
    let mut tokens = Many::new(alloc);
    tokens.push(Token::Name(Text::from_str(alloc, "actions")?))?;
    tokens.push(Token::Index(at as u64))?;
    Ok(Place { tokens })
}
