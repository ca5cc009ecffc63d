// Overlay documents: reading one, and what it keeps.
ghost use Rattle.std.specs.Prelude.{◌≡◌, ◌≢◌, ◌∷◌, [], codes, true, None, Some, ℕ, List, Result, Err, IfOk, IfErr, if◌then◌else◌};
ghost use Rattle.std.specs.List.{list_all};
ghost use Rattle.arz_json.specs.Answer.{Gives, Fails};
ghost use Rattle.arz_json.specs.Tree.{has_form};
ghost use Rattle.arz_json.specs.declared.place.Token.TheVariants.{Name, Index};
ghost use Rattle.arz_json.specs.declared.tree.Refusal.{Refusal};
ghost use Rattle.arz_rules.specs.Place.{least, tokens_in};
ghost use Rattle.arz_rules.specs.Phases.{refusal};
ghost use Rattle.arz_overlay.specs.Applied.{targets, refusal_in, ReadAs};
ghost use Rattle.arz_overlay.specs.Documents.{target_of, is_query, bad_version};

use crate::fault::OverlayFault;
use arz_json::{Json, Many, Place, Text, Token, copy, items_at, text_at};
use arz_query::{PathFault, Query};
use arz_rules::{
    BadVersion, Kind, RuleFault, Way as Step, first_at, first_miss, refuse, refuse_if,
};
use std::alloc::{AllocError, Global};
use std::marker::Model;

/// An overlay document (Overlay 1.0.0, section 4.4), which contracts see as the tree and the label that were
/// read. Its targets are read once.
#[derive(Debug, Drop)]
pub struct Overlay {
    tree: Json,
    label: Text,
    queries: Many<Query>,
}

impl Model for Overlay {
    ghost use Rattle.std.specs.Coded.{codes};
    ghost use Rattle.arz_json.specs.contracts.tree.Json as json;
    ghost use Rattle.arz_overlay.specs.Applied.{IsKept};
    ghost use Rattle.arz_overlay.specs.Documents.{Document};

    ghost Value = { Document };

    ghost coded = { Prim.hlevel (codes, json.the_row.coded) };

    ghost view = { λ o. record { tree = o.tree; label = o.label } };

    ghost invariant = { λ o. IsKept o.tree o.queries };
}

impl Overlay {
    ghost use Rattle.std.specs.Prelude.{◌≡◌, ◌≢◌, map, true, IfErr};
    ghost use Rattle.std.specs.List.{list_all};
    ghost use Rattle.arz_json.specs.Answer.{Gives};
    ghost use Rattle.arz_json.specs.Tree.{has_form, all_true};
    ghost use Rattle.arz_overlay.specs.Applied.{refusal_in};
    ghost use Rattle.arz_overlay.specs.Documents.{document, actions_in, target_of, is_query};
    ghost use Rattle.arz_overlay.specs.declared.fault.OverlayFault.TheVariants.{Pattern};

    /// The overlay that a tree is. `label` names it in refusals.
    ///
    /// `Refused` comes exactly where a rule fails: 3 where a member is missing or of another kind, 4 where the
    /// version isn't one of Overlay 1.0, 15 where a target is no query of JSONPath (RFC 9535). The least rule
    /// is told, at its least place.
    pub fn read(alloc: Global, root: &Json, label: &str) -> Result<Overlay, OverlayFault>
        requires { has_form root.now ≡ true }
        ensures gives { Gives (λ o. o) refusal_in result (document label.now root.now) }
        ensures no_pattern { IfErr result (λ e. e ≢ Pattern) }
    {
        refuse_if(alloc, 3, label, first_miss(alloc, root, Kind::Overlay)?)?;
        refuse_if(alloc, 4, label, first_bad_version(alloc, root)?)?;
        let queries = queries(alloc, label, items_at(root, "actions"))?;
        let tree = copy(alloc, root)?;
        let label = Text::from_str(alloc, label)?;
        Ok(Overlay {
            tree,
            label,
            queries,
        })
    }

    /// The label.
    pub fn label(&self) -> &str
        ensures { result.now ≡ self.now.label }
    {
        self.label.as_str()
    }

    pub(crate) fn actions(&self) -> &[Json]
        ensures actions { result.now ≡ actions_in self.now.tree }
        ensures form { all_true (map has_form result.now) ≡ true }
    {
        items_at(&self.tree, "actions")
    }

    pub(crate) fn queries(&self) -> &[Query]
        ensures targets { result.now ≡ map target_of (actions_in self.now.tree) }
        ensures spelled { list_all is_query result.now ≡ true }
    {
        self.queries.as_slice()
    }
}

fn first_bad_version(alloc: Global, root: &Json) -> Result<Option<Place>, AllocError>
    requires { has_form root.now ≡ true }
    ensures { IfOk result (λ p. tokens_in p ≡ least (bad_version root.now)) }
{
    let check = BadVersion { prefix: "1.0." };
    first_at(alloc, &[Step::Member("overlay")], &check, root)
}

// The targets as queries, or the refusal of the first that is none.
fn queries(alloc: Global, label: &str, actions: &[Json]) -> Result<Many<Query>, OverlayFault>
    ensures gives { Gives (λ qs. qs) refusal_in result (targets label.now actions.now) }
    ensures spelled { IfOk result (λ qs. list_all is_query qs ≡ true) }
    ensures no_pattern { IfErr result (λ e. e ≢ OverlayFault.Pattern) }
{
    let mut queries = Vec::with_capacity(alloc, actions.len())?;
    for (at, action) in actions.iter().enumerate() {
        match target_query(alloc, action)? {
            Some(query) => queries.push(query)?,
            None => return Err(bad_target(alloc, label, at)),
        }
    }
    Ok(Many::from_std(queries))
}

fn target_query(alloc: Global, action: &Json) -> Result<Option<Query>, AllocError>
    ensures { IfOk result (λ q. q ≡ (if is_query (target_of action.now) then Some (target_of action.now) else None)) }
{
    if_query(Query::read(alloc, text_at(action, "target")))
}

// The query that was read, or none where the text is none.
fn if_query(read: Result<Query, PathFault>) -> Result<Option<Query>, AllocError>
    ensures { IfOk result (ReadAs read) }
{
    match read {
        Ok(query) => Ok(Some(query)),
        Err(fault) => unless_memory(fault),
    }
}

fn unless_memory(fault: PathFault) -> Result<Option<Query>, AllocError>
    ensures { IfOk result (λ q. (q ≡ None) × (fault ≢ PathFault.Memory)) }
{
    match fault {
        PathFault::Syntax => Ok(None),
        PathFault::IllTyped(_) => Ok(None),
        PathFault::Fraction(_) => Ok(None),
        PathFault::IntegerRange(_) => Ok(None),
        PathFault::TooNested(_) => Ok(None),
        PathFault::Memory => Err(AllocError),
    }
}

// The refusal of the target of an action.
fn bad_target(alloc: Global, label: &str, at: usize) -> OverlayFault
    ensures gives { Fails (refusal_in result) (let meant : Result (List (List ℕ)) Refusal = Err (refusal label.now (15, Name (codes "actions") ∷ Index at ∷ Name (codes "target") ∷ [])) in meant) }
    ensures no_pattern { result ≢ OverlayFault.Pattern }
{
    match target_place(alloc, at) {
        Ok(place) => OverlayFault::from(refuse(alloc, 15, label, &place)),
        Err(_) => OverlayFault::Memory,
    }
}

fn target_place(alloc: Global, at: usize) -> Result<Place, AllocError>
    ensures { IfOk result (λ p. p.tokens ≡ Name (codes "actions") ∷ Index at ∷ Name (codes "target") ∷ []) }
{
    let mut tokens = Many::new(alloc);
    tokens.push(Token::Name(Text::from_str(alloc, "actions")?))?;
    tokens.push(Token::Index(at as u64))?;
    tokens.push(Token::Name(Text::from_str(alloc, "target")?))?;
    Ok(Place { tokens })
}
