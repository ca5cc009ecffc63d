// Templates with values in place of their expressions.
ghost use Rattle.std.specs.Prelude.{◌≡◌, map, true, Ok, Err, IfOk};
ghost use Rattle.arz_json.specs.Tree.{IsWellFormed, has_form, all_true};
ghost use Rattle.arz_expr.specs.Values.{value_in};
ghost use Rattle.arz_expr.specs.Filling.{Unresolved, FractionUsed, TooNested, resolved, filled_text, filled_member, all_of, with_values, filled};
ghost use Rattle.arz_json.specs.Answer.{Gives};
ghost use Rattle.arz_expr.specs.Cuts.{told};
ghost use Rattle.arz_expr.specs.declared.filling.FillFault.TheVariants.{Memory};

use crate::pieces::mix;
use crate::reading::read_whole;
use crate::syntax::Expr;
use crate::template::Template;
use crate::values::{Scope, value};
use arz_json::{Json, Many, Member, Members, Text, copy, is_deeper};
use std::alloc::{AllocError, AllocFailed, Global};
use thiserror::Error;

/// Why a template gives no tree.
#[derive(Clone, Copy, Debug, PartialEq, Eq, Error)]
pub enum FillFault {
    /// An expression names nothing.
    #[error("an expression has no value")]
    Unresolved,
    /// A value inside a text holds a number with a fraction or exponent, whose spelling is not known.
    #[error("a number with a fraction or exponent has no text")]
    FractionUsed,
    /// The tree would nest deeper than 127.
    #[error("nested too deep")]
    TooNested,
    /// Memory ran out.
    #[error("out of memory")]
    Memory,
}

impl From<AllocError> for FillFault {
    ghost from_gives = { λ _ e. e ≡ Memory };

    fn from(_e: AllocError) -> FillFault {
        FillFault::Memory
    }
}

impl<T: Drop> From<AllocFailed<T>> for FillFault {
    ghost from_gives = { λ _ e. e ≡ Memory };

    fn from(_e: AllocFailed<T>) -> FillFault {
        FillFault::Memory
    }
}

/// The tree that a template gives (Arazzo 1.0.1, section 4.7). A text that is an expression stands for its
/// value, with its kind. In any other text the expressions in braces stand for their values as texts: a
/// text as it is, every other value as compact JSON. Names of members stay as they are.
///
/// The first fault in preorder is told, and `TooNested` only where there is no other.
pub fn fill<S: Scope>(alloc: Global, template: &Template, scope: &S) -> Result<Json, FillFault>
    ensures filled { IfOk result (λ j. filled (S.found scope.now) template.now ≡ Ok j) }
    ensures well_formed { IfOk result IsWellFormed }

    ensures unresolved { result ≡ Err FillFault.Unresolved
        → filled (S.found scope.now) template.now ≡ Err Unresolved }
    ensures fraction_used { result ≡ Err FillFault.FractionUsed
        → filled (S.found scope.now) template.now ≡ Err FractionUsed }
    ensures too_nested { result ≡ Err FillFault.TooNested
        → filled (S.found scope.now) template.now ≡ Err TooNested }
{
    fill_within(alloc, template.tree(), scope)
}

fn fill_within<S: Scope>(alloc: Global, tree: &Json, scope: &S) -> Result<Json, FillFault>
    requires { IsWellFormed tree.now }
    ensures gives { Gives (λ j. j) told result (filled (S.found scope.now) tree.now) }
    ensures well_formed { IfOk result IsWellFormed }
{
    let tree = fill_tree(alloc, tree, scope)?;
    if is_deeper(&tree, 127) {
        return Err(FillFault::TooNested);
    }
    Ok(tree)
}

#[cycle(fill)]
fn fill_tree<S: Scope>(alloc: Global, tree: &Json, scope: &S) -> Result<Json, FillFault>
    requires { has_form tree.now ≡ true }
    ensures gives { Gives (λ j. j) told result (with_values (S.found scope.now) tree.now) }
    ensures form { IfOk result (λ j. has_form j ≡ true) }
{
    match tree {
        Json::Null => Ok(Json::Null),
        Json::Flag(b) => Ok(Json::Flag(*b)),
        Json::Int(n) => Ok(Json::Int(*n)),
        Json::Text(text) => fill_text(alloc, text.as_str(), scope),
        Json::List(items) => Ok(Json::List(fill_items(alloc, items, scope)?)),
        Json::Object(members) => Ok(Json::Object(fill_members(alloc, members, scope)?)),
        Json::Opaque => Ok(Json::Opaque),
    }
}

#[cycle(fill)]
fn fill_items<S: Scope>(
    alloc: Global,
    items: &Many<Json>,
    scope: &S,
) -> Result<Many<Json>, FillFault>
    requires { all_true (map has_form items.now) ≡ true }
    ensures gives { Gives (λ js. js) told result (all_of (map (with_values (S.found scope.now)) items.now)) }
    ensures form { IfOk result (λ js. all_true (map has_form js) ≡ true) }
{
    let mut filled = Vec::with_capacity(alloc, items.len())?;
    for item in items.as_slice() {
        filled.push(fill_tree(alloc, item, scope)?)?;
    }
    Ok(Many::from_std(filled))
}

#[cycle(fill)]
fn fill_members<S: Scope>(alloc: Global, members: &Members, scope: &S) -> Result<Members, FillFault>
    requires { all_true (map (λ m. has_form m.value) members.now) ≡ true }
    ensures gives { Gives (λ ms. ms) told result
        (all_of (map (λ m. filled_member (m.name, with_values (S.found scope.now) m.value)) members.now)) }
    ensures form { IfOk result (λ ms. all_true (map (λ m. has_form m.value) ms) ≡ true) }
{
    let mut filled = Vec::with_capacity(alloc, members.len())?;
    for member in members.as_slice() {
        let value = fill_tree(alloc, &member.value, scope)?;
        let name = member.name.copy(alloc)?;
        filled.push(Member { name, value })?;
    }
    Ok(Many::from_std(filled))
}

#[tactic(auto, unfolding(crate::specs::Filling::filled_text))]
fn fill_text<S: Scope>(alloc: Global, text: &str, scope: &S) -> Result<Json, FillFault>
    ensures gives { Gives (λ j. j) told result (filled_text (S.found scope.now) text.now) }
    ensures form { IfOk result (λ j. has_form j ≡ true) }
{
    if let Some(expr) = read_whole(alloc, text)? {
        return resolve(alloc, &expr, scope);
    }
    let text = mix(alloc, text, scope)?;
    Ok(Json::Text(Text::from_std(text)))
}

fn resolve<S: Scope>(alloc: Global, expr: &Expr, scope: &S) -> Result<Json, FillFault>
    ensures gives { Gives (λ j. j) told result (resolved (S.found scope.now) expr.now) }
    ensures form { IfOk result (λ j. has_form j ≡ true) }
{
    match value(expr, scope) {
        Some(found) => Ok(copy(alloc, found)?),
        None => Err(FillFault::Unresolved),
    }
}
