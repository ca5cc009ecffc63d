// Blanks, marks and names.
ghost use Rattle.std.specs.Prelude.{◌≡◌, IfOk, option_map};
ghost use Rattle.std.specs.Option.{option_copied};
ghost use Rattle.arz_query.specs.Words.{Gives};
ghost use Rattle.arz_query.specs.Lexical.{is_of, cut as cut_of, skip_blanks, after_byte, after_mark, after_pair, is_next, text_in, name_at};

use crate::pieces::ReadFault;
use crate::text::Text;
use std::alloc::Global;

/// A kind of byte that words are made of.
#[derive(Clone, Copy, Debug, PartialEq, Eq)]
pub(crate) enum Class {
    Blank,
    Digit,
    Name,
    Function,
}

fn is_in(class: Class, byte: u8) -> bool
    ensures { result ≡ is_of class byte }
{
    match class {
        Class::Blank => byte == b' ' || byte == b'\t' || byte == b'\n' || byte == b'\r',
        Class::Digit => byte.is_ascii_digit(),
        Class::Name => byte.is_ascii_alphanumeric() || byte == b'_' || 128 <= byte,
        Class::Function => byte.is_ascii_lowercase() || byte.is_ascii_digit() || byte == b'_',
    }
}

/// The longest run of such bytes, and what follows it.
pub(crate) fn cut(class: Class, text: &[u8]) -> (&[u8], &[u8])
    ensures front { result.0.now ≡ (cut_of class text.now).0 }
    ensures rest { result.1.now ≡ (cut_of class text.now).1 }
{
    let mut end = 0;
    while end < text.len() && is_in(class, text[end]) {
        end += 1;
    }
    (&text[..end], &text[end..])
}

/// What follows the blanks (`S`).
pub(crate) fn without_blanks(text: &[u8]) -> &[u8]
    ensures { result.now ≡ skip_blanks text.now }
{
    cut(Class::Blank, text).1
}

/// What follows that byte, if it is first.
pub(crate) fn after(text: &[u8], byte: u8) -> Option<&[u8]>
    ensures { option_copied result ≡ after_byte byte text.now }
{
    match text.split_first() {
        Some((first, rest)) => if *first == byte { Some(rest) } else { None },
        None => None,
    }
}

/// What follows that byte and the blanks on both its sides.
pub(crate) fn after_one(text: &[u8], byte: u8) -> Option<&[u8]>
    ensures { option_copied result ≡ after_mark byte text.now }
{
    match after(without_blanks(text), byte) {
        Some(rest) => Some(without_blanks(rest)),
        None => None,
    }
}

/// What follows that byte twice and the blanks on both sides.
pub(crate) fn after_two(text: &[u8], byte: u8) -> Option<&[u8]>
    ensures { option_copied result ≡ after_pair byte text.now }
{
    match after(without_blanks(text), byte) {
        Some(one) => match after(one, byte) {
            Some(two) => Some(without_blanks(two)),
            None => None,
        },
        None => None,
    }
}

/// Whether the next byte is of that kind.
pub(crate) fn begins(class: Class, text: &[u8]) -> bool
    ensures { result ≡ is_next (is_of class) text.now }
{
    match text.first() {
        Some(byte) => is_in(class, *byte),
        None => false,
    }
}

/// The text that bytes of UTF-8 are.
#[tactic(auto, using(crate::proofs::Texts::text_is, crate::proofs::Texts::text_none))]
pub(crate) fn text_of(alloc: Global, bytes: &[u8]) -> Result<Text, ReadFault>
    ensures { Gives (λ t. t) result (text_in bytes.now) }
{
    let Ok(text) = str::from_utf8(bytes) else {
        return Err(ReadFault::Syntax);
    };
    Ok(Text::from_str(alloc, text)?)
}

/// A name without quotes, and what follows it (`member-name-shorthand`).
#[tactic(auto, unfolding(crate::specs::Lexical::name_at))]
pub(crate) fn name(alloc: Global, text: &[u8]) -> Result<(Text, &[u8]), ReadFault>
    ensures { Gives (λ n. (n.0, n.1.now)) result (name_at text.now) }
{
    if !begins(Class::Name, text) || begins(Class::Digit, text) {
        return Err(ReadFault::Syntax);
    }
    let (front, rest) = cut(Class::Name, text);
    let front = text_of(alloc, front)?;
    Ok((front, rest))
}
