// What an expression may stand for (RFC 9535, section 2.4.3), and the calls of functions.
ghost use Rattle.std.specs.Prelude.{◌≡◌, Some};
ghost use Rattle.arz_query.specs.Words.{Gives, as_read};
ghost use Rattle.arz_query.specs.Typing.{ill_unless as ill_marks, operand_of, is_value as has_value, test_of, is_test as may_be_test, as_test, no_value as no_value_call, no_test as no_test_call, only_of, pair_of, nodes_of, length_of, count_of, value_of, match_of, search_of, call_of};
ghost use Rattle.arz_query.specs.Reading.{called as called_with};

use crate::pieces::{FlawKind, Marks, Part, ReadFault};
use crate::query::{Operand, Segment, Start, Test};
use sqlite_items::{Boxed, Items};
use std::alloc::Global;

/// An expression, before it is known where it stands. A query has besides whether it is singular.
#[derive(Drop)]
pub(crate) enum Term {
    Literal(Operand),
    Value(Operand),
    Nodes(Start, Items<Segment>, bool),
    Logical(Test),
}

/// The marks with IllTyped there, unless it fits.
pub(crate) fn ill_unless(fits: bool, left: usize, marks: Marks) -> Marks
    ensures { result ≡ ill_marks fits left marks }
{
    if fits {
        return marks;
    }
    Marks::flawed(FlawKind::IllTyped, left).joined(marks)
}

/// An expression as an operand.
pub(crate) fn operand(term: Term) -> Operand
    ensures { result ≡ operand_of term }
{
    match term {
        Term::Literal(operand) | Term::Value(operand) => operand,
        Term::Nodes(start, segments, _) => Operand::Query(start, segments),
        Term::Logical(_) => Operand::Null,
    }
}

/// Whether it has a value.
pub(crate) fn is_value(term: &Term) -> bool
    ensures { result ≡ has_value term.now }
{
    match term {
        Term::Literal(_) | Term::Value(_) => true,
        Term::Nodes(_, _, single) => *single,
        Term::Logical(_) => false,
    }
}

fn is_test(term: &Term) -> bool
    ensures { result ≡ may_be_test term.now }
{
    match term {
        Term::Value(_) => false,
        Term::Literal(_) | Term::Nodes(_, _, _) | Term::Logical(_) => true,
    }
}

fn test_in(alloc: Global, term: Term) -> Option<Test>
    ensures { result ≡ test_of term }
{
    match term {
        Term::Literal(_) => None,
        Term::Value(_) => Some(Test::Any(Items::new(alloc))),
        Term::Nodes(start, segments, _) => Some(Test::Exists(start, segments)),
        Term::Logical(test) => Some(test),
    }
}

/// What was read where so many bytes were left, as a test.
pub(crate) fn test(
    alloc: Global,
    part: Part<'_, Term>,
    left: usize,
) -> Result<Part<'_, Test>, ReadFault>
    ensures { Gives as_read result (as_test left (as_read part.entry)) }
{
    let Part { value, marks, rest } = part;
    let marks = ill_unless(is_test(&value), left, marks);
    let Some(value) = test_in(alloc, value) else {
        return Err(ReadFault::Syntax);
    };
    Ok(Part { value, marks, rest })
}

fn only(terms: Items<Term>) -> Option<Term>
    ensures { result ≡ only_of terms }
{
    if terms.len() != 1 {
        return None;
    }
    let mut terms = terms;
    terms.pop()
}

fn pair(terms: Items<Term>) -> Option<(Term, Term)>
    ensures { result ≡ pair_of terms }
{
    if terms.len() != 2 {
        return None;
    }
    let mut terms = terms;
    let second = terms.remove(1);
    let first = terms.remove(0);
    Some((first, second))
}

// Whether there is one, if any, and a call that fits none.
fn no_value() -> (Term, bool)
    ensures { result ≡ no_value_call }
{
    (Term::Value(Operand::Null), false)
}

fn no_test(alloc: Global) -> (Term, bool)
    ensures { result ≡ no_test_call }
{
    (Term::Logical(Test::Any(Items::new(alloc))), false)
}

fn length_call(alloc: Global, term: Term) -> Result<(Term, bool), ReadFault>
    ensures { Gives (λ c. c) result (Some (length_of term)) }
{
    let fits = is_value(&term);
    let operand = Boxed::new(alloc, operand(term))?;
    Ok((Term::Value(Operand::Length(operand)), fits))
}

/// The query, where the expression is one.
fn nodes_in(term: Term) -> Option<(Start, Items<Segment>)>
    ensures { result ≡ nodes_of term }
{
    match term {
        Term::Nodes(start, segments, _) => Some((start, segments)),
        _ => None,
    }
}

fn count_call(term: Term) -> (Term, bool)
    ensures { result ≡ count_of term }
{
    match nodes_in(term) {
        Some((start, segments)) => (Term::Value(Operand::Count(start, segments)), true),
        None => no_value(),
    }
}

fn value_call(term: Term) -> (Term, bool)
    ensures { result ≡ value_of term }
{
    match nodes_in(term) {
        Some((start, segments)) => (Term::Value(Operand::Value(start, segments)), true),
        None => no_value(),
    }
}

fn match_call(terms: (Term, Term)) -> (Term, bool)
    ensures { result ≡ match_of terms }
{
    let (text, pattern) = terms;
    let fits = is_value(&text) && is_value(&pattern);
    (
        Term::Logical(Test::Match(operand(text), operand(pattern))),
        fits,
    )
}

fn search_call(terms: (Term, Term)) -> (Term, bool)
    ensures { result ≡ search_of terms }
{
    let (text, pattern) = terms;
    let fits = is_value(&text) && is_value(&pattern);
    (
        Term::Logical(Test::Search(operand(text), operand(pattern))),
        fits,
    )
}

/// The call of a function (2.4.4 to 2.4.8), and whether there is such a function and its arguments fit.
#[tactic(auto, unfolding(crate::specs::Typing::call_of))]
pub(crate) fn call(alloc: Global, name: &[u8], args: Items<Term>) -> Result<(Term, bool), ReadFault>
    ensures { Gives (λ c. c) result (Some (call_of name.now args)) }
{
    if name == b"length".as_slice() {
        return match only(args) {
            Some(term) => length_call(alloc, term),
            None => Ok(no_value()),
        };
    }
    if name == b"count".as_slice() {
        return match only(args) {
            Some(term) => Ok(count_call(term)),
            None => Ok(no_value()),
        };
    }
    if name == b"value".as_slice() {
        return match only(args) {
            Some(term) => Ok(value_call(term)),
            None => Ok(no_value()),
        };
    }
    if name == b"match".as_slice() {
        return match pair(args) {
            Some(terms) => Ok(match_call(terms)),
            None => Ok(no_test(alloc)),
        };
    }
    if name == b"search".as_slice() {
        return match pair(args) {
            Some(terms) => Ok(search_call(terms)),
            None => Ok(no_test(alloc)),
        };
    }
    Ok(no_test(alloc))
}

/// The call of a function whose name begins where so many bytes are left.
pub(crate) fn called<'a>(
    alloc: Global,
    left: usize,
    name: &[u8],
    args: Part<'a, Items<Term>>,
) -> Result<Part<'a, Term>, ReadFault>
    ensures { Gives as_read result (Some (called_with left name.now (as_read args.entry))) }
{
    let Part { value, marks, rest } = args;
    let (value, fits) = call(alloc, name, value)?;
    Ok(Part {
        value,
        marks: ill_unless(fits, left, marks),
        rest,
    })
}
