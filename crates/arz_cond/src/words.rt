// Runs of bytes, and marks between them.
ghost use Rattle.std.specs.Prelude.{◌≡◌};
ghost use Rattle.std.specs.Option.{option_copied};
ghost use Rattle.arz_query.specs.Lexical.{after_byte, text_in};
ghost use Rattle.arz_expr.specs.Grammar.{is_pointer_byte};
ghost use Rattle.arz_cond.specs.Words.{Gives};
ghost use Rattle.arz_cond.specs.Grammar.{run, without_blanks as blanks_skipped};
ghost use Rattle.arz_cond.specs.Reading.{is_of, after_pair};

use crate::pieces::ReadFault;
use arz_json::Text;
use std::alloc::Global;

/// A kind of byte that tokens are made of.
#[derive(Clone, Copy, Debug, PartialEq, Eq)]
pub(crate) enum Class {
    /// What may stand between tokens.
    Blank,
    Digit,
    /// A letter of a word.
    Letter,
    /// A byte of an expression.
    Expression,
}

fn is_expression_byte(byte: u8) -> bool
    ensures { result ≡ is_pointer_byte byte }
{
    32 < byte && byte != 127 && !b"{}()!=<>&|'".contains(&byte)
}

fn is_in(class: Class, byte: u8) -> bool
    ensures { result ≡ is_of class byte }
{
    match class {
        Class::Blank => byte == b' ' || byte == b'\t' || byte == b'\n' || byte == b'\r',
        Class::Digit => byte.is_ascii_digit(),
        Class::Letter => byte.is_ascii_lowercase(),
        Class::Expression => is_expression_byte(byte),
    }
}

/// The longest run of such bytes, and what follows it.
pub(crate) fn cut(class: Class, text: &[u8]) -> (&[u8], &[u8])
    ensures front { result.0.now ≡ (run (is_of class) text.now).0 }
    ensures rest { result.1.now ≡ (run (is_of class) text.now).1 }
{
    let mut end = 0;
    while end < text.len() && is_in(class, text[end]) {
        end += 1;
    }
    (&text[..end], &text[end..])
}

/// What follows the blanks.
pub(crate) fn without_blanks(text: &[u8]) -> &[u8]
    ensures { result.now ≡ blanks_skipped text.now }
{
    cut(Class::Blank, text).1
}

/// What follows that byte, if it is first.
pub(crate) fn after(text: &[u8], byte: u8) -> Option<&[u8]>
    ensures { option_copied result ≡ after_byte byte text.now }
{
    match text.split_first() {
        Some((first, rest)) => if *first == byte { Some(rest) } else { None },
        None => None,
    }
}

/// What follows that byte twice and the blanks on both sides.
pub(crate) fn after_two(text: &[u8], byte: u8) -> Option<&[u8]>
    ensures { option_copied result ≡ after_pair byte text.now }
{
    match after(without_blanks(text), byte) {
        Some(one) => match after(one, byte) {
            Some(two) => Some(without_blanks(two)),
            None => None,
        },
        None => None,
    }
}

/// The text that bytes of UTF-8 are.
#[tactic(auto, using(arz_query::proofs::Texts::text_is, arz_query::proofs::Texts::text_none))]
pub(crate) fn text_of(alloc: Global, bytes: &[u8]) -> Result<Text, ReadFault>
    ensures { Gives (λ t. t) result (text_in bytes.now) }
{
    let Ok(text) = str::from_utf8(bytes) else {
        return Err(ReadFault::Syntax);
    };
    Ok(Text::from_str(alloc, text)?)
}
