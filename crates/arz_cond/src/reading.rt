// Reading a simple condition from the left (Arazzo 1.0.1, section 4.6.11). Functions of the cycle take `room`: how
// many parentheses and `!` may still be opened.
ghost use Rattle.std.specs.Prelude.{◌≡◌, Some, option_map};
ghost use Rattle.arz_cond.specs.Words.{Gives, as_read, items_at, with_value};
ghost use Rattle.arz_cond.specs.Grammar.{one_or};
ghost use Rattle.arz_cond.specs.Reading.{operator_at, compared as compared_parts, comparison_of, and_of, or_of, not_at, after_pair, closed as closed_part, negated as negated_part, reading};
ghost use Rattle.arz_cond.specs.declared.term.Term.TheVariants as term;

use crate::literals::plain;
use crate::pieces::{Part, ReadFault, add, first_of};
use crate::term::{Comparison, Term};
use crate::words::{after, after_two, without_blanks};
use sqlite_items::{Boxed, Items};
use std::alloc::Global;

/// How many parentheses and `!` may be open.
const MAX_OPEN: usize = 64;

#[tactic(auto, unfolding(crate::specs::Reading::operator_at))]
fn operator(text: &[u8]) -> Option<(Comparison, &[u8])>
    ensures { option_map (λ c. (c.0, c.1.now)) result ≡ operator_at text.now }
{
    let (first, rest) = text.split_first()?;
    if *first == b'=' {
        return Some((Comparison::Equal, after(rest, b'=')?));
    }
    if *first == b'!' {
        return Some((Comparison::Unequal, after(rest, b'=')?));
    }
    if *first == b'<' {
        if let Some(more) = after(rest, b'=') {
            return Some((Comparison::LessOrEqual, more));
        }
        return Some((Comparison::Less, rest));
    }
    if *first == b'>' {
        if let Some(more) = after(rest, b'=') {
            return Some((Comparison::GreaterOrEqual, more));
        }
        return Some((Comparison::Greater, rest));
    }
    None
}

fn any_of(terms: Items<Term>) -> Term
    ensures { result ≡ one_or term.Any terms }
{
    if terms.len() != 1 {
        return Term::Any(terms);
    }
    let mut terms = terms;
    match terms.pop() {
        Some(only) => only,
        None => unreachable!(),
    }
}

fn all_of(terms: Items<Term>) -> Term
    ensures { result ≡ one_or term.All terms }
{
    if terms.len() != 1 {
        return Term::All(terms);
    }
    let mut terms = terms;
    match terms.pop() {
        Some(only) => only,
        None => unreachable!(),
    }
}

fn compared<'a>(
    alloc: Global,
    one: Term,
    by: Comparison,
    other: Part<'a, Term>,
    start: &'a [u8],
) -> Result<Part<'a, Term>, ReadFault>
    ensures { Gives as_read result (Some (compared_parts (record { value = one; rest = start.now }) by (as_read other.entry))) }
{
    let Part { value, rest } = other;
    let one = Boxed::new(alloc, one)?;
    let other = Boxed::new(alloc, value)?;
    Ok(Part {
        value: Term::Compare(one, by, other),
        rest,
    })
}

// What stands in parentheses, with the last of them behind it.
fn closed(part: Part<'_, Term>) -> Result<Part<'_, Term>, ReadFault>
    ensures { Gives as_read result (closed_part (as_read part.entry)) }
{
    let Part { value, rest } = part;
    let Some(rest) = after(without_blanks(rest), b')') else {
        return Err(ReadFault::Syntax);
    };
    Ok(Part { value, rest })
}

fn negated(alloc: Global, part: Part<'_, Term>) -> Result<Part<'_, Term>, ReadFault>
    ensures { Gives as_read result (Some (negated_part (as_read part.entry))) }
{
    let Part { value, rest } = part;
    Ok(Part {
        value: Term::Not(Boxed::new(alloc, value)?),
        rest,
    })
}

#[cycle(read)]
#[tactic(auto, unfolding(crate::specs::Reading::or_of))]
fn any<'a>(
    alloc: Global,
    text: &'a [u8],
    room: usize,
    fractions: bool,
) -> Result<Part<'a, Term>, ReadFault>
    ensures { Gives as_read result (or_of (not_at fractions room) text.now) }
{
    let Part { value, rest } = ands(alloc, text, room, fractions)?;
    Ok(Part {
        value: any_of(value),
        rest,
    })
}

#[cycle(read)]
#[tactic(auto, unfolding(crate::specs::Words::items_at))]
fn ands<'a>(
    alloc: Global,
    text: &'a [u8],
    room: usize,
    fractions: bool,
) -> Result<Part<'a, Items<Term>>, ReadFault>
    ensures { Gives as_read result (items_at (after_pair 124) (and_of (not_at fractions room)) text.now) }
{
    let mut terms = first_of(alloc, all(alloc, text, room, fractions)?)?;
    for _ in 0..text.len() {
        let Some(next) = after_two(terms.rest, b'|') else {
            return Ok(terms);
        };
        let other = all(alloc, next, room, fractions)?;
        add(&mut terms, other)?;
    }
    Ok(terms)
}

#[cycle(read)]
#[tactic(auto, unfolding(crate::specs::Reading::and_of))]
fn all<'a>(
    alloc: Global,
    text: &'a [u8],
    room: usize,
    fractions: bool,
) -> Result<Part<'a, Term>, ReadFault>
    ensures { Gives as_read result (and_of (not_at fractions room) text.now) }
{
    let Part { value, rest } = comparisons(alloc, text, room, fractions)?;
    Ok(Part {
        value: all_of(value),
        rest,
    })
}

#[cycle(read)]
#[tactic(auto, unfolding(crate::specs::Words::items_at))]
fn comparisons<'a>(
    alloc: Global,
    text: &'a [u8],
    room: usize,
    fractions: bool,
) -> Result<Part<'a, Items<Term>>, ReadFault>
    ensures { Gives as_read result (items_at (after_pair 38) (comparison_of (not_at fractions room)) text.now) }
{
    let mut terms = first_of(alloc, comparison(alloc, text, room, fractions)?)?;
    for _ in 0..text.len() {
        let Some(next) = after_two(terms.rest, b'&') else {
            return Ok(terms);
        };
        let other = comparison(alloc, next, room, fractions)?;
        add(&mut terms, other)?;
    }
    Ok(terms)
}

#[cycle(read)]
#[tactic(auto, unfolding(crate::specs::Reading::comparison_of))]
fn comparison<'a>(
    alloc: Global,
    text: &'a [u8],
    room: usize,
    fractions: bool,
) -> Result<Part<'a, Term>, ReadFault>
    ensures { Gives as_read result (comparison_of (not_at fractions room) text.now) }
{
    let one = operand(alloc, text, room, fractions)?;
    let Some((by, next)) = operator(without_blanks(one.rest)) else {
        return Ok(one);
    };
    let other = operand(alloc, without_blanks(next), room, fractions)?;
    let Part { value, rest } = one;
    compared(alloc, value, by, other, rest)
}

#[cycle(read)]
#[tactic(auto, unfolding(crate::specs::Reading::not_of), using(crate::proofs::Lists::no_room, crate::proofs::Lists::some_room))]
fn operand<'a>(
    alloc: Global,
    text: &'a [u8],
    room: usize,
    fractions: bool,
) -> Result<Part<'a, Term>, ReadFault>
    ensures { Gives as_read result (not_at fractions room text.now) }
{
    if room == 0 {
        return plain(alloc, text, fractions);
    }
    let Some((first, rest)) = text.split_first() else {
        return Err(ReadFault::Syntax);
    };
    if *first == b'!' {
        let inside = operand(alloc, without_blanks(rest), room - 1, fractions)?;
        return negated(alloc, inside);
    }
    if *first == b'(' {
        return closed(any(alloc, without_blanks(rest), room - 1, fractions)?);
    }
    plain(alloc, text, fractions)
}

/// The term that a whole text spells, where literals may be numbers with a fraction or an exponent if
/// `fractions` is true.
#[tactic(auto, unfolding(crate::specs::Reading::reading))]
pub(crate) fn condition(alloc: Global, text: &[u8], fractions: bool) -> Result<Term, ReadFault>
    ensures { Gives (λ t. t) result (reading fractions text.now) }
{
    let Part { value, rest } = any(alloc, text, MAX_OPEN, fractions)?;
    if rest.is_empty() {
        Ok(value)
    } else {
        Err(ReadFault::Syntax)
    }
}
