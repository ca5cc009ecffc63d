// Numbers (RFC 8259, section 6).
ghost use Rattle.std.specs.Prelude.{◌≡◌, ◌≤◌, ◌^◌, ◌||◌, not, true, IfSome, option_map};
ghost use Rattle.std.specs.Option.{option_copied};
ghost use Rattle.std.specs.Char.{is_ascii_digit};
ghost use Rattle.arz_query.specs.Lexical.{is_next};
ghost use Rattle.arz_query.specs.Numbers.{digit_behind, number_from, are_digits, whole_of, whole_at, digits_at, exponent_of, exponent_at, fraction_at, begins_fraction, literal_limit, signed as signed_as};
ghost use Rattle.arz_cond.specs.Grammar.{run};
ghost use Rattle.arz_cond.specs.Reading.{number_at, found, as_whole};

use crate::term::Literal;
use crate::words::{Class, after, cut};

// A whole number: whether it has a minus, its digits, and what follows.
#[derive(Clone, Copy, Debug)]
struct Whole<'a> {
    negative: bool,
    digits: &'a [u8],
    rest: &'a [u8],
}

fn digit_added(value: u64, digit: u8, limit: u64) -> Option<u64>
    ensures { result ≡ digit_behind limit value digit }
{
    let next = value as u128 * 10 + digit.saturating_sub(b'0') as u128;
    if next <= limit as u128 {
        Some(next as u64)
    } else {
        None
    }
}

// The value of digits, where it is at most the limit.
fn value_of(digits: &[u8], limit: u64) -> Option<u64>
    ensures value { result ≡ number_from limit 0 digits.now }
    ensures below { IfSome result (λ n. n ≤ limit) }
{
    let mut value = 0u64;
    for digit in digits {
        value = digit_added(value, *digit, limit)?;
    }
    Some(value)
}

fn are_digits_of(digits: &[u8]) -> bool
    ensures { result ≡ are_digits true digits.now }
{
    match digits.split_first() {
        Some((first, others)) => *first != b'0' || others.is_empty(),
        None => false,
    }
}

fn with_sign(text: &[u8], negative: bool) -> Option<Whole<'_>>
    ensures { option_map as_whole result ≡ whole_of true negative (run is_ascii_digit text.now) }
{
    let (digits, rest) = cut(Class::Digit, text);
    if !are_digits_of(digits) {
        return None;
    }
    Some(Whole {
        negative,
        digits,
        rest,
    })
}

#[tactic(auto, using(crate::proofs::Runs::whole_run))]
fn whole_number(text: &[u8]) -> Option<Whole<'_>>
    ensures { option_map as_whole result ≡ whole_at true text.now }
{
    if let Some(text) = after(text, b'-') {
        return with_sign(text, true);
    }
    with_sign(text, false)
}

fn begins_with_digit(text: &[u8]) -> bool
    ensures { result ≡ is_next is_ascii_digit text.now }
{
    match text.first() {
        Some(byte) => byte.is_ascii_digit(),
        None => false,
    }
}

#[tactic(auto, using(crate::proofs::Runs::digits_run))]
fn digits(text: &[u8]) -> Option<&[u8]>
    ensures { option_copied result ≡ digits_at text.now }
{
    if begins_with_digit(text) {
        Some(cut(Class::Digit, text).1)
    } else {
        None
    }
}

fn signed_digits(text: &[u8]) -> Option<&[u8]>
    ensures { option_copied result ≡ exponent_of text.now }
{
    if let Some(text) = after(text, b'-') {
        return digits(text);
    }
    if let Some(text) = after(text, b'+') {
        return digits(text);
    }
    digits(text)
}

fn exponent(text: &[u8]) -> Option<&[u8]>
    ensures { option_copied result ≡ exponent_at text.now }
{
    if let Some(text) = after(text, b'e') {
        return signed_digits(text);
    }
    if let Some(text) = after(text, b'E') {
        return signed_digits(text);
    }
    Some(text)
}

#[tactic(auto, unfolding(arz_query::specs::Numbers::fraction_at))]
fn fraction(text: &[u8]) -> Option<&[u8]>
    ensures { option_copied result ≡ fraction_at text.now }
{
    if let Some(text) = after(text, b'.') {
        return exponent(digits(text)?);
    }
    exponent(text)
}

fn has_fraction(text: &[u8]) -> bool
    ensures { result ≡ is_next begins_fraction text.now }
{
    match text.first() {
        Some(byte) => *byte == b'.' || *byte == b'e' || *byte == b'E',
        None => false,
    }
}

fn limit_of(negative: bool) -> u64
    ensures { result ≡ literal_limit negative }
{
    if negative {
        9223372036854775808
    } else {
        u64::MAX
    }
}

fn signed(negative: bool, n: u64) -> i128
    ensures { result ≡ signed_as negative n }
{
    if negative { -(n as i128) } else { n as i128 }
}

/// A number, and what follows it. What one with a fraction or an exponent is read as is never asked.
#[tactic(auto, unfolding(crate::specs::Reading::number_at, arz_query::specs::Numbers::literal_at))]
pub(crate) fn number(text: &[u8], fractions: bool) -> Option<(Literal, &[u8])>
    ensures { option_map (λ n. found n.1.now n.0) result ≡ number_at fractions text.now }
{
    let whole = whole_number(text)?;
    if has_fraction(whole.rest) {
        let rest = fraction(whole.rest)?;
        return if fractions {
            Some((Literal::Null, rest))
        } else {
            None
        };
    }
    let n = value_of(whole.digits, limit_of(whole.negative))?;
    Some((Literal::Int(signed(whole.negative, n)), whole.rest))
}
