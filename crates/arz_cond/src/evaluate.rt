// The values of simple conditions.
ghost use Rattle.std.specs.Prelude.{◌≡◌, IfOk};
ghost use Rattle.arz_cond.specs.Meaning.{value_of as value_of_term, some_true, each_true};
ghost use Rattle.arz_cond.specs.Seen.{worth_seen, IsPlain};

use crate::compare::compare;
use crate::term::Term;
use crate::values::{Worth, is_true, worth_of, worth_of_literal};
use arz_expr::{Scope, value};
use sqlite_items::Items;
use std::alloc::{AllocError, Global};

/// The value of a condition, or of a part of one (Arazzo 1.0.1, section 4.6.11.1).
#[cycle(evaluate)]
#[tactic(auto, using(crate::proofs::Meanings::any_means, crate::proofs::Meanings::all_means, crate::proofs::Meanings::not_means, crate::proofs::Meanings::compare_means, crate::proofs::Meanings::literal_means, crate::proofs::Meanings::value_means))]
pub fn value_of<'a, S: Scope>(
    term: &'a Term,
    alloc: Global,
    scope: &'a S,
) -> Result<Worth<'a>, AllocError>
    ensures seen { IfOk result (λ w. worth_seen w ≡ value_of_term (S.found scope.now) term.now) }
    ensures plain { IfOk result IsPlain }
{
    match term {
        Term::Any(terms) => Ok(Worth::Flag(any_is_true(terms, alloc, scope)?)),
        Term::All(terms) => Ok(Worth::Flag(all_are_true(terms, alloc, scope)?)),
        Term::Not(term) => {
            let worth = value_of(term.get(), alloc, scope)?;
            Ok(Worth::Flag(!is_true(worth)))
        }
        Term::Compare(left, comparison, right) => {
            let left = value_of(left.get(), alloc, scope)?;
            let right = value_of(right.get(), alloc, scope)?;
            Ok(Worth::Flag(compare(alloc, left, *comparison, right)?))
        }
        Term::Literal(literal) => Ok(worth_of_literal(literal)),
        Term::Value(expr) => Ok(worth_of(value(expr, scope))),
    }
}

#[cycle(evaluate)]
fn any_is_true<S: Scope>(terms: &Items<Term>, alloc: Global, scope: &S) -> Result<bool, AllocError>
    ensures { IfOk result (λ b. b ≡ some_true (S.found scope.now) terms.now) }
{
    for term in terms.as_slice() {
        let worth = value_of(term, alloc, scope)?;
        if is_true(worth) {
            return Ok(true);
        }
    }
    Ok(false)
}

#[cycle(evaluate)]
fn all_are_true<S: Scope>(terms: &Items<Term>, alloc: Global, scope: &S) -> Result<bool, AllocError>
    ensures { IfOk result (λ b. b ≡ each_true (S.found scope.now) terms.now) }
{
    for term in terms.as_slice() {
        let worth = value_of(term, alloc, scope)?;
        if !is_true(worth) {
            return Ok(false);
        }
    }
    Ok(true)
}
