// Reading a query from the left. Functions of the cycle take `room`: how many expressions may stand
// inside each other.
ghost use Rattle.arz_query.specs.Words.{Gives, as_read, items_at};
ghost use Rattle.arz_query.specs.Reading.{expr_at, any_of as any_of_at, all_of as all_of_at, item_of, negated_of, compared_of, group_of, term_of, word_of, arguments_of, segments_of, segment_of, selection_of, selector_of, comma as comma_at};

use crate::expressions::{
    all_of, any_of, closed, closed_by, comma, compared, comparison, keyword, logical, negation,
    nodes, number_literal, segment_start, text_literal,
};
use crate::pieces::{Marks, Part, ReadFault, add, first_of};
use crate::query::{Segment, Selector, Start, Test};
use crate::selectors::{child, descendant, filtered, named, numbered, shorthand, wildcard};
use crate::terms::{Term, called, test};
use crate::words::{Class, after, after_two, cut, without_blanks};
use sqlite_items::Items;
use std::alloc::Global;

#[cycle(read)]
#[tactic(auto, using(crate::proofs::Lists::no_room, crate::proofs::Lists::some_room))]
fn expr<'a>(alloc: Global, text: &'a [u8], room: usize) -> Result<Part<'a, Term>, ReadFault>
    ensures { Gives as_read result (expr_at room text.now) }
{
    if room == 0 {
        return Err(ReadFault::Syntax);
    }
    any(alloc, text, room - 1)
}

#[cycle(read)]
#[tactic(auto, unfolding(crate::specs::Reading::any_of))]
fn any<'a>(alloc: Global, text: &'a [u8], room: usize) -> Result<Part<'a, Term>, ReadFault>
    ensures { Gives as_read result (any_of_at (expr_at room) text.now) }
{
    let one = all(alloc, text, room)?;
    if after_two(one.rest, b'|').is_none() {
        return Ok(one);
    }
    let mut tests = first_of(alloc, test(alloc, one, text.len())?)?;
    for _ in 0..text.len() {
        let Some(next) = after_two(tests.rest, b'|') else {
            return Ok(any_of(tests));
        };
        let one = all(alloc, next, room)?;
        let other = test(alloc, one, next.len())?;
        add(&mut tests, other)?;
    }
    Ok(any_of(tests))
}

#[cycle(read)]
#[tactic(auto, unfolding(crate::specs::Reading::all_of))]
fn all<'a>(alloc: Global, text: &'a [u8], room: usize) -> Result<Part<'a, Term>, ReadFault>
    ensures { Gives as_read result (all_of_at (expr_at room) text.now) }
{
    let one = item(alloc, text, room)?;
    if after_two(one.rest, b'&').is_none() {
        return Ok(one);
    }
    let mut tests = first_of(alloc, test(alloc, one, text.len())?)?;
    for _ in 0..text.len() {
        let Some(next) = after_two(tests.rest, b'&') else {
            return Ok(all_of(tests));
        };
        let one = item(alloc, next, room)?;
        let other = test(alloc, one, next.len())?;
        add(&mut tests, other)?;
    }
    Ok(all_of(tests))
}

#[cycle(read)]
#[tactic(auto, unfolding(crate::specs::Reading::item_of))]
fn item<'a>(alloc: Global, text: &'a [u8], room: usize) -> Result<Part<'a, Term>, ReadFault>
    ensures { Gives as_read result (item_of (expr_at room) text.now) }
{
    let Some((first, rest)) = text.split_first() else {
        return Err(ReadFault::Syntax);
    };
    if *first == b'!' {
        return negated(alloc, without_blanks(rest), room);
    }
    if *first == b'(' {
        return Ok(logical(group(alloc, rest, room)?));
    }
    compared_or_alone(alloc, text, room)
}

// What follows `!` and the blanks behind it.
#[cycle(read)]
#[tactic(auto, unfolding(crate::specs::Reading::negated_of, crate::specs::Reading::tested))]
fn negated<'a>(alloc: Global, text: &'a [u8], room: usize) -> Result<Part<'a, Term>, ReadFault>
    ensures { Gives as_read result (negated_of (expr_at room) text.now) }
{
    if let Some(inside) = after(text, b'(') {
        return negation(alloc, group(alloc, inside, room)?);
    }
    let one = term(alloc, text, room)?;
    negation(alloc, test(alloc, one, text.len())?)
}

#[cycle(read)]
#[tactic(auto, unfolding(crate::specs::Reading::compared_of))]
fn compared_or_alone<'a>(
    alloc: Global,
    text: &'a [u8],
    room: usize,
) -> Result<Part<'a, Term>, ReadFault>
    ensures { Gives as_read result (compared_of (expr_at room) text.now) }
{
    let first = term(alloc, text, room)?;
    let Some((by, rest)) = comparison(without_blanks(first.rest)) else {
        return Ok(first);
    };
    let rest = without_blanks(rest);
    let second = term(alloc, rest, room)?;
    Ok(compared(text.len(), first, by, rest.len(), second))
}

// An expression that is a test, and the parenthesis behind it.
#[cycle(read)]
#[tactic(auto, unfolding(crate::specs::Reading::group_of, crate::specs::Reading::tested))]
fn group<'a>(alloc: Global, text: &'a [u8], room: usize) -> Result<Part<'a, Test>, ReadFault>
    ensures { Gives as_read result (group_of (expr_at room) text.now) }
{
    let text = without_blanks(text);
    let one = expr(alloc, text, room)?;
    closed(test(alloc, one, text.len())?)
}

#[cycle(read)]
#[tactic(auto, unfolding(crate::specs::Reading::term_of))]
fn term<'a>(alloc: Global, text: &'a [u8], room: usize) -> Result<Part<'a, Term>, ReadFault>
    ensures { Gives as_read result (term_of (expr_at room) text.now) }
{
    let Some((first, rest)) = text.split_first() else {
        return Err(ReadFault::Syntax);
    };
    if *first == b'$' {
        return Ok(nodes(Start::Root, segments(alloc, rest, room)?));
    }
    if *first == b'@' {
        return Ok(nodes(Start::Current, segments(alloc, rest, room)?));
    }
    if *first == b'\'' || *first == b'"' {
        return text_literal(alloc, *first, rest);
    }
    if first.is_ascii_lowercase() {
        return word(alloc, text, room);
    }
    number_literal(text)
}

#[cycle(read)]
#[tactic(auto, unfolding(crate::specs::Reading::word_of))]
fn word<'a>(alloc: Global, text: &'a [u8], room: usize) -> Result<Part<'a, Term>, ReadFault>
    ensures { Gives as_read result (word_of (expr_at room) text.now) }
{
    let (name, rest) = cut(Class::Function, text);
    let Some(inside) = after(rest, b'(') else {
        return keyword(name, rest);
    };
    called(alloc, text.len(), name, arguments(alloc, inside, room)?)
}

#[cycle(read)]
#[tactic(auto, unfolding(crate::specs::Reading::arguments_of))]
fn arguments<'a>(
    alloc: Global,
    text: &'a [u8],
    room: usize,
) -> Result<Part<'a, Items<Term>>, ReadFault>
    ensures { Gives as_read result (arguments_of (expr_at room) text.now) }
{
    let text = without_blanks(text);
    if let Some(rest) = after(text, b')') {
        return Ok(Part {
            value: Items::new(alloc),
            marks: Marks::fine(),
            rest,
        });
    }
    closed(terms(alloc, text, room)?)
}

#[cycle(read)]
#[tactic(auto, unfolding(crate::specs::Words::items_at))]
fn terms<'a>(alloc: Global, text: &'a [u8], room: usize) -> Result<Part<'a, Items<Term>>, ReadFault>
    ensures { Gives as_read result (items_at comma_at (expr_at room) text.now) }
{
    let mut all = first_of(alloc, expr(alloc, text, room)?)?;
    for _ in 0..text.len() {
        let Some(next) = comma(all.rest) else {
            return Ok(all);
        };
        let other = expr(alloc, next, room)?;
        add(&mut all, other)?;
    }
    Ok(all)
}

/// The segments of a query (RFC 9535, section 2.1.1).
#[cycle(read)]
#[tactic(auto, unfolding(crate::specs::Reading::segments_of))]
pub(crate) fn segments<'a>(
    alloc: Global,
    text: &'a [u8],
    room: usize,
) -> Result<Part<'a, Items<Segment>>, ReadFault>
    ensures { Gives as_read result (segments_of (expr_at room) text.now) }
{
    let mut all = Part {
        value: Items::new(alloc),
        marks: Marks::fine(),
        rest: text,
    };
    for _ in 0..text.len() {
        let Some(next) = segment_start(all.rest) else {
            return Ok(all);
        };
        let other = segment(alloc, next, room)?;
        add(&mut all, other)?;
    }
    Ok(all)
}

#[cycle(read)]
#[tactic(auto, unfolding(crate::specs::Reading::segment_of))]
fn segment<'a>(alloc: Global, text: &'a [u8], room: usize) -> Result<Part<'a, Segment>, ReadFault>
    ensures { Gives as_read result (segment_of (expr_at room) text.now) }
{
    if let Some(inside) = after(text, b'[') {
        return Ok(child(selection(alloc, inside, room)?));
    }
    let Some(text) = after(text, b'.') else {
        return Err(ReadFault::Syntax);
    };
    let Some(text) = after(text, b'.') else {
        return Ok(child(shorthand(alloc, text)?));
    };
    let Some(inside) = after(text, b'[') else {
        return Ok(descendant(shorthand(alloc, text)?));
    };
    Ok(descendant(selection(alloc, inside, room)?))
}

#[cycle(read)]
#[tactic(auto, unfolding(crate::specs::Reading::selection_of))]
fn selection<'a>(
    alloc: Global,
    text: &'a [u8],
    room: usize,
) -> Result<Part<'a, Items<Selector>>, ReadFault>
    ensures { Gives as_read result (selection_of (expr_at room) text.now) }
{
    let all = selectors(alloc, without_blanks(text), room)?;
    let Some(after) = after(without_blanks(all.rest), b']') else {
        return Err(ReadFault::Syntax);
    };
    Ok(closed_by(text, all, after))
}

#[cycle(read)]
#[tactic(auto, unfolding(crate::specs::Words::items_at))]
fn selectors<'a>(
    alloc: Global,
    text: &'a [u8],
    room: usize,
) -> Result<Part<'a, Items<Selector>>, ReadFault>
    ensures { Gives as_read result (items_at comma_at (selector_of (expr_at room)) text.now) }
{
    let mut all = first_of(alloc, selector(alloc, text, room)?)?;
    for _ in 0..text.len() {
        let Some(next) = comma(all.rest) else {
            return Ok(all);
        };
        let other = selector(alloc, next, room)?;
        add(&mut all, other)?;
    }
    Ok(all)
}

#[cycle(read)]
#[tactic(auto, unfolding(crate::specs::Reading::selector_of, crate::specs::Reading::tested))]
fn selector<'a>(alloc: Global, text: &'a [u8], room: usize) -> Result<Part<'a, Selector>, ReadFault>
    ensures { Gives as_read result (selector_of (expr_at room) text.now) }
{
    let Some((first, rest)) = text.split_first() else {
        return Err(ReadFault::Syntax);
    };
    if *first == b'\'' || *first == b'"' {
        return named(alloc, *first, rest);
    }
    if *first == b'*' {
        return Ok(wildcard(rest));
    }
    if *first == b'?' {
        let text = without_blanks(rest);
        let one = expr(alloc, text, room)?;
        return Ok(filtered(test(alloc, one, text.len())?));
    }
    numbered(text)
}
