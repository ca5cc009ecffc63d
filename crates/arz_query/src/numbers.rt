// Numbers: those of index and slice selectors (RFC 9535, sections 2.3.3 and 2.3.4), and those of
// comparisons (2.3.5.1).
ghost use Rattle.std.specs.Prelude.{◌≡◌, ◌≤◌, ◌<◌, ◌^◌, ◌||◌, not, IfSome, option_map};
ghost use Rattle.std.specs.Option.{option_copied};
ghost use Rattle.arz_query.specs.Words.{Gives, as_read};
ghost use Rattle.arz_query.specs.Lexical.{cut as cut_of, is_next};
ghost use Rattle.arz_query.specs.Numbers.{digit_behind, number_from, are_digits, whole_of, whole_at, ranged, index_at, digits_at, exponent_of, exponent_at, fraction_at, begins_fraction, literal_limit, literal_at, as_whole};

use crate::pieces::{FlawKind, Marks, Part, ReadFault};
use crate::words::{Class, after, begins, cut};

// A whole number: whether it has a minus, its digits, and what follows.
#[derive(Clone, Copy, Debug)]
struct Whole<'a> {
    negative: bool,
    digits: &'a [u8],
    rest: &'a [u8],
}

fn digit_added(value: u64, digit: u8, limit: u64) -> Option<u64>
    ensures { result ≡ digit_behind limit value digit }
{
    let next = value as u128 * 10 + digit.saturating_sub(b'0') as u128;
    if next <= limit as u128 {
        Some(next as u64)
    } else {
        None
    }
}

// The value of digits, where it is at most the limit.
fn number(digits: &[u8], limit: u64) -> Option<u64>
    ensures value { result ≡ number_from limit 0 digits.now }
    ensures below { IfSome result (λ n. n ≤ limit) }
{
    let mut value = 0u64;
    for digit in digits {
        value = digit_added(value, *digit, limit)?;
    }
    Some(value)
}

fn are_digits_of(digits: &[u8], may_be_zero: bool) -> bool
    ensures { result ≡ are_digits may_be_zero digits.now }
{
    match digits.split_first() {
        Some((first, others)) => *first != b'0' || others.is_empty() && may_be_zero,
        None => false,
    }
}

fn with_sign(text: &[u8], minus_zero: bool, negative: bool) -> Option<Whole<'_>>
    ensures { option_map as_whole result ≡ whole_of minus_zero negative (cut_of Class.Digit text.now) }
{
    let (digits, rest) = cut(Class::Digit, text);
    if !are_digits_of(digits, minus_zero || !negative) {
        return None;
    }
    Some(Whole {
        negative,
        digits,
        rest,
    })
}

#[tactic(auto, unfolding(crate::specs::Numbers::whole_at))]
fn whole_number(text: &[u8], minus_zero: bool) -> Option<Whole<'_>>
    ensures { option_map as_whole result ≡ whole_at minus_zero text.now }
{
    if let Some(text) = after(text, b'-') {
        return with_sign(text, minus_zero, true);
    }
    with_sign(text, minus_zero, false)
}

const INDEX_LIMIT: u64 = 9007199254740991;

// The value of a number as an index, or the flaw of one that is past the range.
fn ranged_index<'a>(left: usize, negative: bool, n: Option<u64>, rest: &'a [u8]) -> Part<'a, i64>
    requires { IfSome n (λ v. v ≤ 9007199254740991) }
    ensures { as_read result ≡ ranged left negative rest.now n }
{
    let Some(n) = n else {
        let marks = Marks::flawed(FlawKind::IntegerRange, left);
        return Part {
            value: 0,
            marks,
            rest,
        };
    };
    let value = if negative { -(n as i64) } else { n as i64 };
    Part {
        value,
        marks: Marks::fine(),
        rest,
    }
}

/// An index or a part of a slice.
#[tactic(auto, unfolding(crate::specs::Numbers::index_at))]
pub(crate) fn index(text: &[u8]) -> Result<Part<'_, i64>, ReadFault>
    ensures { Gives as_read result (index_at text.now) }
{
    let Some(whole) = whole_number(text, false) else {
        return Err(ReadFault::Syntax);
    };
    let n = number(whole.digits, INDEX_LIMIT);
    Ok(ranged_index(text.len(), whole.negative, n, whole.rest))
}

fn digits(text: &[u8]) -> Option<&[u8]>
    ensures { option_copied result ≡ digits_at text.now }
{
    if begins(Class::Digit, text) {
        Some(cut(Class::Digit, text).1)
    } else {
        None
    }
}

fn signed_digits(text: &[u8]) -> Option<&[u8]>
    ensures { option_copied result ≡ exponent_of text.now }
{
    if let Some(text) = after(text, b'-') {
        return digits(text);
    }
    if let Some(text) = after(text, b'+') {
        return digits(text);
    }
    digits(text)
}

fn exponent(text: &[u8]) -> Option<&[u8]>
    ensures { option_copied result ≡ exponent_at text.now }
{
    if let Some(text) = after(text, b'e') {
        return signed_digits(text);
    }
    if let Some(text) = after(text, b'E') {
        return signed_digits(text);
    }
    Some(text)
}

#[tactic(auto, unfolding(crate::specs::Numbers::fraction_at))]
fn fraction(text: &[u8]) -> Option<&[u8]>
    ensures { option_copied result ≡ fraction_at text.now }
{
    if let Some(text) = after(text, b'.') {
        return exponent(digits(text)?);
    }
    exponent(text)
}

fn has_fraction(text: &[u8]) -> bool
    ensures { result ≡ is_next begins_fraction text.now }
{
    match text.first() {
        Some(byte) => *byte == b'.' || *byte == b'e' || *byte == b'E',
        None => false,
    }
}

// The value of a literal number, or the flaw of one that is past the range.
fn ranged_literal<'a>(left: usize, negative: bool, n: Option<u64>, rest: &'a [u8]) -> Part<'a, i128>
    ensures { as_read result ≡ ranged left negative rest.now n }
{
    let Some(n) = n else {
        let marks = Marks::flawed(FlawKind::IntegerRange, left);
        return Part {
            value: 0,
            marks,
            rest,
        };
    };
    let value = if negative { -(n as i128) } else { n as i128 };
    Part {
        value,
        marks: Marks::fine(),
        rest,
    }
}

fn limit_of(negative: bool) -> u64
    ensures { result ≡ literal_limit negative }
{
    if negative {
        9223372036854775808
    } else {
        u64::MAX
    }
}

/// A number of a comparison.
#[tactic(auto, unfolding(crate::specs::Numbers::literal_at))]
pub(crate) fn literal(text: &[u8]) -> Result<Part<'_, i128>, ReadFault>
    ensures { Gives as_read result (literal_at text.now) }
{
    let Some(whole) = whole_number(text, true) else {
        return Err(ReadFault::Syntax);
    };
    if has_fraction(whole.rest) {
        let Some(rest) = fraction(whole.rest) else {
            return Err(ReadFault::Syntax);
        };
        let marks = Marks::flawed(FlawKind::Fraction, text.len());
        return Ok(Part {
            value: 0,
            marks,
            rest,
        });
    }
    let n = number(whole.digits, limit_of(whole.negative));
    Ok(ranged_literal(text.len(), whole.negative, n, whole.rest))
}
