// Texts with values in place of the expressions that they hold in braces.
ghost use Rattle.std.specs.Prelude.{◌≡◌, ◌++◌, ◌∷◌, ◌<◌, ℕ, List, length, map, None, Some, MatchOption, IfOk, IfSome, string_bytes, IsUtf8};
ghost use Rattle.arz_json.specs.Tree.{IsWellFormed};
ghost use Rattle.arz_expr.specs.Reading.{reading};
ghost use Rattle.arz_expr.specs.Filling.{Embedded, Byte, mapped, pieces, embedded, text_of_piece, joined, mixed};
ghost use Rattle.arz_json.specs.Answer.{Gives};
ghost use Rattle.arz_expr.specs.Cuts.{told, OpensNone, pieces_to, compact_of};

use crate::filling::FillFault;
use crate::reading::read_whole;
use crate::syntax::Expr;
use crate::values::{Scope, value};
use arz_json::{CompactFault, Json, compact_string};
use std::alloc::{AllocError, Global};

/// What stands in a text up to its first `}`.
#[derive(Drop)]
pub struct Cut<'a> {
    /// What stands before the expression, or before the `}` where it ends none.
    pub plain: &'a str,
    /// The expression that the `}` ends.
    pub expr: Option<Expr>,
    /// What is left.
    pub rest: &'a str,
}

// Cuts a text behind its first `}`, if it has one. An expression holds no `{`, so only the last `{` before
// the `}` may begin one.
fn next_cut(alloc: Global, text: &str) -> Result<Option<Cut<'_>>, AllocError>
    ensures cut { IfOk result (λ r. MatchOption r (pieces text.now ≡ map Byte text.now)
        (λ c. (pieces text.now ≡ pieces_to c ++ pieces c.rest.now) × (length c.rest.now < length text.now))) }
    ensures text { IfOk result (λ r. IfSome r (λ c. IsUtf8 c.rest.now)) }
{
    let Some((front, rest)) = text.split_once('}') else {
        return Ok(None);
    };
    match last_braced(alloc, front)? {
        Some((plain, expr)) => Ok(Some(Cut {
            plain,
            expr: Some(expr),
            rest,
        })),
        None => Ok(Some(Cut {
            plain: front,
            expr: None,
            rest,
        })),
    }
}

// The expression between a `{` and the text's end, and what stands before the `{`.
fn last_braced(alloc: Global, text: &str) -> Result<Option<(&str, Expr)>, AllocError>
    ensures { IfOk result (λ r. MatchOption r (OpensNone text.now)
        (λ p. (inside : List ℕ) × (text.now ≡ p.0.now ++ 123 ∷ inside) × (reading inside ≡ Some p.1))) }
{
    let Some((plain, inside)) = text.rsplit_once('{') else {
        return Ok(None);
    };
    match read_whole(alloc, inside)? {
        Some(expr) => Ok(Some((plain, expr))),
        None => Ok(None),
    }
}

/// The text with the values in place of the expressions that it holds in braces.
pub(crate) fn mix<S: Scope>(alloc: Global, text: &str, scope: &S) -> Result<String, FillFault>
    ensures { Gives string_bytes told result (mixed (S.found scope.now) text.now) }
{
    let mut out = String::new(alloc);
    let mut rest = text;
    'pieces: while let Some(cut) = next_cut(alloc, rest)? {
        push_cut(alloc, &mut out, &cut, scope)?;
        rest = cut.rest;
    }
    out.push_str(rest)?;
    Ok(out)
}

fn push_cut<S: Scope>(
    alloc: Global,
    out: &mut String,
    cut: &Cut,
    scope: &S,
) -> Result<(), FillFault>
    ensures { Gives (λ _. string_bytes out.new) told result
        (mapped (λ t. string_bytes out.old ++ t) (joined (S.found scope.now) (pieces_to cut.now))) }
{
    out.push_str(cut.plain)?;
    match &cut.expr {
        Some(expr) => push_value(alloc, out, expr, scope),
        None => {
            out.push_str("}")?;
            Ok(())
        }
    }
}

fn push_value<S: Scope>(
    alloc: Global,
    out: &mut String,
    expr: &Expr,
    scope: &S,
) -> Result<(), FillFault>
    ensures { Gives (λ _. string_bytes out.new) told result
        (mapped (λ t. string_bytes out.old ++ t) (text_of_piece (S.found scope.now) (Embedded expr.now))) }
{
    match value(expr, scope) {
        Some(found) => push_rendered(alloc, out, found),
        None => Err(FillFault::Unresolved),
    }
}

fn push_rendered(alloc: Global, out: &mut String, value: &Json) -> Result<(), FillFault>
    requires { IsWellFormed value.now }
    ensures { Gives (λ _. string_bytes out.new) told result
        (mapped (λ t. string_bytes out.old ++ t) (embedded value.now)) }
{
    match value {
        Json::Null => out.push_str("null")?,
        Json::Flag(flag) => out.push_str(if *flag { "true" } else { "false" })?,
        Json::Int(n) => write!(out, "{n}")?,
        Json::Text(text) => out.push_str(text.as_str())?,
        Json::List(_) | Json::Object(_) => push_compact(alloc, out, value)?,
        Json::Opaque => return Err(FillFault::FractionUsed),
    }
    Ok(())
}

fn push_compact(alloc: Global, out: &mut String, value: &Json) -> Result<(), FillFault>
    requires { IsWellFormed value.now }
    ensures { Gives (λ _. string_bytes out.new) told result
        (mapped (λ t. string_bytes out.old ++ t) (compact_of value.now)) }
{
    match compact_string(alloc, value) {
        Ok(text) => {
            out.push_str(text.as_str())?;
            Ok(())
        }
        Err(CompactFault::FractionUsed) => Err(FillFault::FractionUsed),
        Err(CompactFault::Memory) => Err(FillFault::Memory),
    }
}
