// Parts of expressions (RFC 9535, section 2.3.5.1) that hold no further one.
ghost use Rattle.std.specs.Prelude.{◌≡◌, Some, option_map};
ghost use Rattle.std.specs.Option.{option_copied};
ghost use Rattle.arz_query.specs.Lexical.{is_next};
ghost use Rattle.arz_query.specs.Words.{Gives, as_read};
ghost use Rattle.arz_query.specs.Reading.{comparison_at, keyword_of, compared as compared_parts, negated, segment_start as start_of_segment, begins_segment, comma as comma_at, closed_by as closed_selection, literal as literal_term, text_literal_at, number_literal_at, nodes as nodes_from, logical as logical_part, closed as closed_part, tests_as};
ghost use Rattle.arz_query.specs.declared.query.Test.TheVariants.{Any, All};

use crate::numbers::literal as number;
use crate::pieces::{Marks, Part, ReadFault};
use crate::query::{Comparison, Operand, Segment, Selector, Start, Test};
use crate::quoted::quoted;
use crate::terms::{Term, ill_unless, is_value, operand};
use crate::words::{Class, after, after_one, begins, without_blanks};
use sqlite_items::{Boxed, Items};
use std::alloc::Global;

/// A comparison operator, and what follows it.
#[tactic(auto, unfolding(crate::specs::Reading::comparison_at))]
pub(crate) fn comparison(text: &[u8]) -> Option<(Comparison, &[u8])>
    ensures { option_map (λ c. (c.0, c.1.now)) result ≡ comparison_at text.now }
{
    let (first, rest) = text.split_first()?;
    if *first == b'=' {
        return Some((Comparison::Equal, after(rest, b'=')?));
    }
    if *first == b'!' {
        return Some((Comparison::Unequal, after(rest, b'=')?));
    }
    if *first == b'<' {
        if let Some(more) = after(rest, b'=') {
            return Some((Comparison::LessOrEqual, more));
        }
        return Some((Comparison::Less, rest));
    }
    if *first == b'>' {
        if let Some(more) = after(rest, b'=') {
            return Some((Comparison::GreaterOrEqual, more));
        }
        return Some((Comparison::Greater, rest));
    }
    None
}

fn literal(operand: Operand, rest: &[u8]) -> Part<'_, Term>
    ensures { as_read result ≡ literal_term operand rest.now }
{
    Part {
        value: Term::Literal(operand),
        marks: Marks::fine(),
        rest,
    }
}

/// A literal that is a word.
#[tactic(auto, unfolding(crate::specs::Reading::keyword_of))]
pub(crate) fn keyword<'a>(word: &[u8], rest: &'a [u8]) -> Result<Part<'a, Term>, ReadFault>
    ensures { Gives as_read result (keyword_of word.now rest.now) }
{
    if word == b"true".as_slice() {
        return Ok(literal(Operand::Flag(true), rest));
    }
    if word == b"false".as_slice() {
        return Ok(literal(Operand::Flag(false), rest));
    }
    if word == b"null".as_slice() {
        return Ok(literal(Operand::Null, rest));
    }
    Err(ReadFault::Syntax)
}

/// A literal in quotes, behind the first one.
pub(crate) fn text_literal(
    alloc: Global,
    quote: u8,
    text: &[u8],
) -> Result<Part<'_, Term>, ReadFault>
    ensures { Gives as_read result (text_literal_at quote text.now) }
{
    let (text, rest) = quoted(alloc, quote, text)?;
    Ok(literal(Operand::Text(text), rest))
}

/// A literal that is a number.
pub(crate) fn number_literal(text: &[u8]) -> Result<Part<'_, Term>, ReadFault>
    ensures { Gives as_read result (number_literal_at text.now) }
{
    let Part { value, marks, rest } = number(text)?;
    Ok(Part {
        value: Term::Literal(Operand::Int(value)),
        marks,
        rest,
    })
}

/// A query from its start.
pub(crate) fn nodes(start: Start, segments: Part<'_, Items<Segment>>) -> Part<'_, Term>
    ensures { as_read result ≡ nodes_from start (as_read segments.entry) }
{
    let Part { value, marks, rest } = segments;
    Part {
        value: Term::Nodes(start, value, marks.single),
        marks,
        rest,
    }
}

/// A test as an expression.
pub(crate) fn logical(test: Part<'_, Test>) -> Part<'_, Term>
    ensures { as_read result ≡ logical_part (as_read test.entry) }
{
    let Part { value, marks, rest } = test;
    Part {
        value: Term::Logical(value),
        marks,
        rest,
    }
}

/// Tests of which one is to hold, as an expression.
pub(crate) fn any_of(tests: Part<'_, Items<Test>>) -> Part<'_, Term>
    ensures { as_read result ≡ tests_as Any (as_read tests.entry) }
{
    let Part { value, marks, rest } = tests;
    Part {
        value: Term::Logical(Test::Any(value)),
        marks,
        rest,
    }
}

/// Tests which are all to hold, as an expression.
pub(crate) fn all_of(tests: Part<'_, Items<Test>>) -> Part<'_, Term>
    ensures { as_read result ≡ tests_as All (as_read tests.entry) }
{
    let Part { value, marks, rest } = tests;
    Part {
        value: Term::Logical(Test::All(value)),
        marks,
        rest,
    }
}

/// What stands in parentheses, with the last of them behind it.
pub(crate) fn closed<T: Drop>(part: Part<'_, T>) -> Result<Part<'_, T>, ReadFault>
    ensures { Gives as_read result (closed_part (as_read part.entry)) }
{
    let Part { value, marks, rest } = part;
    let Some(rest) = after(without_blanks(rest), b')') else {
        return Err(ReadFault::Syntax);
    };
    Ok(Part { value, marks, rest })
}

/// Two operands that begin where so many bytes are left, compared.
pub(crate) fn compared<'a>(
    left: usize,
    one: Part<'a, Term>,
    by: Comparison,
    other_left: usize,
    other: Part<'a, Term>,
) -> Part<'a, Term>
    ensures { as_read result ≡ compared_parts left (as_read one.entry) by other_left (as_read other.entry) }
{
    let first = ill_unless(is_value(&one.value), left, one.marks);
    let second = ill_unless(is_value(&other.value), other_left, other.marks);
    let Part { value, .. } = one;
    let Part {
        value: other,
        rest,
        ..
    } = other;
    Part {
        value: Term::Logical(Test::Compare(operand(value), by, operand(other))),
        marks: first.joined(second),
        rest,
    }
}

/// The negation of a test.
pub(crate) fn negation(alloc: Global, test: Part<'_, Test>) -> Result<Part<'_, Term>, ReadFault>
    ensures { Gives as_read result (Some (negated (as_read test.entry))) }
{
    let Part { value, marks, rest } = test;
    Ok(Part {
        value: Term::Logical(Test::Not(Boxed::new(alloc, value)?)),
        marks,
        rest,
    })
}

fn begins_segment_at(text: &[u8]) -> bool
    ensures { result ≡ is_next begins_segment text.now }
{
    match text.first() {
        Some(byte) => *byte == b'[' || *byte == b'.',
        None => false,
    }
}

/// What follows blanks, where it begins a segment.
#[tactic(auto, unfolding(crate::specs::Reading::segment_start))]
pub(crate) fn segment_start(text: &[u8]) -> Option<&[u8]>
    ensures { option_copied result ≡ start_of_segment text.now }
{
    let text = without_blanks(text);
    if begins_segment_at(text) {
        Some(text)
    } else {
        None
    }
}

/// What follows a comma and the blanks on both its sides.
#[tactic(auto, unfolding(crate::specs::Reading::comma))]
pub(crate) fn comma(text: &[u8]) -> Option<&[u8]>
    ensures { option_copied result ≡ comma_at text.now }
{
    after_one(text, b',')
}

/// The selectors of a selection whose brackets hold that text, with what follows them.
pub(crate) fn closed_by<'a>(
    text: &[u8],
    all: Part<'_, Items<Selector>>,
    rest: &'a [u8],
) -> Part<'a, Items<Selector>>
    ensures { as_read result ≡ closed_selection text.now (as_read all.entry) rest.now }
{
    let Part {
        value,
        marks: Marks { flaw, single },
        rest: end,
    } = all;
    let tight = !begins(Class::Blank, text) && !begins(Class::Blank, end);
    let single = single && value.len() == 1 && tight;
    Part {
        value,
        marks: Marks { flaw, single },
        rest,
    }
}
