// Selectors and short segments that hold no expression (RFC 9535, sections 2.3.1 to 2.3.4 and 2.5).
ghost use Rattle.std.specs.Prelude.{◌≡◌, pos, unwrap_or, option_map};
ghost use Rattle.arz_query.specs.Words.{Gives, as_read};
ghost use Rattle.arz_query.specs.Lexical.{is_next, quoted_at};
ghost use Rattle.arz_query.specs.Reading.{begins_int, bound_at, slice_of as slice_parts, no_bound as no_bound_at, some_bound as some_bound_of, step_at as step_in, slice_begun, numbered_at, shorthand_at, named as named_part, wildcard as wildcard_part, filtered as filtered_part, child as child_part, descendant as descendant_part};

use crate::numbers::index;
use crate::pieces::{Marks, Part, ReadFault, first_of};
use crate::query::{Segment, Selector, Slice, Test};
use crate::quoted::quoted;
use crate::text::Text;
use crate::words::{after, name, without_blanks};
use sqlite_items::Items;
use std::alloc::Global;

fn begins_number(text: &[u8]) -> bool
    ensures { result ≡ is_next begins_int text.now }
{
    match text.first() {
        Some(byte) => byte.is_ascii_digit() || *byte == b'-',
        None => false,
    }
}

fn some_bound(part: Part<'_, i64>) -> Part<'_, Option<i64>>
    ensures { as_read result ≡ some_bound_of (as_read part.entry) }
{
    let Part { value, marks, rest } = part;
    Part {
        value: Some(value),
        marks,
        rest,
    }
}

fn no_bound(text: &[u8]) -> Part<'_, Option<i64>>
    ensures { as_read result ≡ no_bound_at text.now }
{
    Part {
        value: None,
        marks: Marks::fine(),
        rest: text,
    }
}

// A number and the blanks behind it, where one is written.
#[tactic(auto, unfolding(crate::specs::Reading::bound_at))]
fn bound(text: &[u8]) -> Result<Part<'_, Option<i64>>, ReadFault>
    ensures { Gives as_read result (bound_at text.now) }
{
    if begins_number(text) {
        let Part { value, marks, rest } = index(text)?;
        return Ok(Part {
            value: Some(value),
            marks,
            rest: without_blanks(rest),
        });
    }
    Ok(no_bound(text))
}

fn step_of(step: Option<i64>) -> i64
    ensures { result ≡ unwrap_or step (pos 1) }
{
    match step {
        Some(step) => step,
        None => 1,
    }
}

fn slice_of(start: Option<i64>, end: Option<i64>, step: i64) -> Slice
    ensures { result ≡ record { start = start; end = end; step = step } }
{
    Slice { start, end, step }
}

fn slice<'a>(
    start: Part<'a, Option<i64>>,
    end: Part<'a, Option<i64>>,
    step: Part<'a, Option<i64>>,
) -> Part<'a, Selector>
    ensures { as_read result ≡ slice_parts (as_read start.entry) (as_read end.entry) (as_read step.entry) }
{
    let Part { value, marks, rest } = step;
    Part {
        value: Selector::Slice(slice_of(start.value, end.value, step_of(value))),
        marks: start.marks.joined(end.marks).joined(marks).plural(),
        rest,
    }
}

// The step behind its colon, where one is written.
#[tactic(auto, unfolding(crate::specs::Reading::step_at))]
fn step(text: &[u8]) -> Result<Part<'_, Option<i64>>, ReadFault>
    ensures { Gives as_read result (step_in text.now) }
{
    let behind = without_blanks(text);
    if begins_number(behind) {
        return Ok(some_bound(index(behind)?));
    }
    Ok(no_bound(text))
}

// What follows the first colon of a slice.
fn begun<'a>(start: Part<'a, Option<i64>>, text: &'a [u8]) -> Result<Part<'a, Selector>, ReadFault>
    ensures { Gives as_read result (slice_begun (as_read start.entry) text.now) }
{
    let end = bound(without_blanks(text))?;
    let Some(rest) = after(end.rest, b':') else {
        let step = no_bound(end.rest);
        return Ok(slice(start, end, step));
    };
    let step = step(rest)?;
    Ok(slice(start, end, step))
}

/// An index or a slice.
#[tactic(auto, unfolding(crate::specs::Reading::numbered_at))]
pub(crate) fn numbered(text: &[u8]) -> Result<Part<'_, Selector>, ReadFault>
    ensures { Gives as_read result (numbered_at text.now) }
{
    if begins_number(text) {
        let start = index(text)?;
        if let Some(rest) = after(without_blanks(start.rest), b':') {
            return begun(some_bound(start), rest);
        }
        let Part { value, marks, rest } = start;
        return Ok(Part {
            value: Selector::Index(value),
            marks,
            rest,
        });
    }
    let Some(rest) = after(text, b':') else {
        return Err(ReadFault::Syntax);
    };
    begun(no_bound(text), rest)
}

/// A wildcard, and what follows it.
pub(crate) fn wildcard(rest: &[u8]) -> Part<'_, Selector>
    ensures { as_read result ≡ wildcard_part rest.now }
{
    Part {
        value: Selector::Wildcard,
        marks: Marks::fine().plural(),
        rest,
    }
}

fn of_name(name: Text, rest: &[u8]) -> Part<'_, Selector>
    ensures { as_read result ≡ named_part (name, rest.now) }
{
    Part {
        value: Selector::Name(name),
        marks: Marks::fine(),
        rest,
    }
}

/// A name in quotes, behind the first one.
pub(crate) fn named(alloc: Global, quote: u8, text: &[u8]) -> Result<Part<'_, Selector>, ReadFault>
    ensures { Gives as_read result (option_map named_part (quoted_at quote text.now)) }
{
    let (name, rest) = quoted(alloc, quote, text)?;
    Ok(of_name(name, rest))
}

/// A filter of that test.
pub(crate) fn filtered(test: Part<'_, Test>) -> Part<'_, Selector>
    ensures { as_read result ≡ filtered_part (as_read test.entry) }
{
    let Part { value, marks, rest } = test;
    Part {
        value: Selector::Filter(value),
        marks: marks.plural(),
        rest,
    }
}

/// A wildcard or a name without quotes, as selectors.
#[tactic(auto, unfolding(crate::specs::Reading::shorthand_at))]
pub(crate) fn shorthand(alloc: Global, text: &[u8]) -> Result<Part<'_, Items<Selector>>, ReadFault>
    ensures { Gives as_read result (shorthand_at text.now) }
{
    if let Some(rest) = after(text, b'*') {
        return first_of(alloc, wildcard(rest));
    }
    let (name, rest) = name(alloc, text)?;
    first_of(alloc, of_name(name, rest))
}

/// A segment among the children.
pub(crate) fn child(selectors: Part<'_, Items<Selector>>) -> Part<'_, Segment>
    ensures { as_read result ≡ child_part (as_read selectors.entry) }
{
    let Part { value, marks, rest } = selectors;
    Part {
        value: Segment::Child(value),
        marks,
        rest,
    }
}

/// A segment among the children of all descendants.
pub(crate) fn descendant(selectors: Part<'_, Items<Selector>>) -> Part<'_, Segment>
    ensures { as_read result ≡ descendant_part (as_read selectors.entry) }
{
    let Part { value, marks, rest } = selectors;
    Part {
        value: Segment::Descendant(value),
        marks: marks.plural(),
        rest,
    }
}
