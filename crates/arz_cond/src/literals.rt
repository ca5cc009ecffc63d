// Literals of conditions (Arazzo 1.0.1, section 4.6.11.1), and expressions (4.7).
ghost use Rattle.std.specs.Prelude.{◌≡◌, ◌++◌, IfOk, option_map, option_and_then};
ghost use Rattle.arz_query.specs.Lexical.{texted};
ghost use Rattle.arz_expr.specs.Reading.{reading as expression_of};
ghost use Rattle.arz_cond.specs.Words.{Gives, as_read};
ghost use Rattle.arz_cond.specs.Reading.{found, expression_at, keyword_of, keyword_at, number_at, character_at, ended as ended_at, quoted_at, text_at, literal as literal_part, plain_at};

use crate::numbers::number;
use crate::pieces::{Part, ReadFault};
use crate::term::{Literal, Term};
use crate::words::{Class, after, cut, text_of};
use arz_expr::Expr;
use arz_json::Text;
use std::alloc::{AllocError, Global};

/// The expression that a text is, if it is one.
pub(crate) fn expression(alloc: Global, text: &str) -> Result<Option<Expr>, AllocError>
    ensures { IfOk result (λ e. e ≡ expression_of text.now) }
{
    Expr::read(alloc, text)
}

#[tactic(auto, unfolding(crate::specs::Reading::expression_at), using(arz_query::proofs::Texts::text_is, arz_query::proofs::Texts::text_none))]
fn expression_part(alloc: Global, text: &[u8]) -> Result<Part<'_, Term>, ReadFault>
    ensures { Gives as_read result (expression_at text.now) }
{
    let (front, rest) = cut(Class::Expression, text);
    let Ok(front) = str::from_utf8(front) else {
        return Err(ReadFault::Syntax);
    };
    let Some(expr) = expression(alloc, front)? else {
        return Err(ReadFault::Syntax);
    };
    Ok(Part {
        value: Term::Value(expr),
        rest,
    })
}

#[tactic(auto, unfolding(crate::specs::Reading::keyword_of))]
fn keyword_in<'a>(word: &[u8], rest: &'a [u8]) -> Option<(Literal, &'a [u8])>
    ensures { option_map (λ l. found l.1.now l.0) result ≡ keyword_of word.now rest.now }
{
    if word == b"true".as_slice() {
        return Some((Literal::Flag(true), rest));
    }
    if word == b"false".as_slice() {
        return Some((Literal::Flag(false), rest));
    }
    if word == b"null".as_slice() {
        return Some((Literal::Null, rest));
    }
    None
}

fn keyword(text: &[u8]) -> Option<(Literal, &[u8])>
    ensures { option_map (λ l. found l.1.now l.0) result ≡ keyword_at text.now }
{
    let (word, rest) = cut(Class::Letter, text);
    keyword_in(word, rest)
}

// A character of a quoted text, or two quotes for one.
fn character(text: &[u8]) -> Option<(u8, &[u8])>
    ensures { option_map (λ c. (c.0, c.1.now)) result ≡ character_at text.now }
{
    let (first, rest) = text.split_first()?;
    if *first != b'\'' {
        return Some((*first, rest));
    }
    Some((*first, after(rest, b'\'')?))
}

// The text of those bytes, where the last quote comes next.
fn ended<'a>(alloc: Global, bytes: &[u8], text: &'a [u8]) -> Result<(Text, &'a [u8]), ReadFault>
    ensures { Gives (λ t. (t.0, t.1.now)) result (option_and_then texted (option_map (λ e. (bytes.now ++ e.0, e.1)) (ended_at text.now))) }
{
    let Some(rest) = after(text, b'\'') else {
        return Err(ReadFault::Syntax);
    };
    let text = text_of(alloc, bytes)?;
    Ok((text, rest))
}

// A quoted text behind its first quote, and what follows its last one.
#[tactic(auto, unfolding(crate::specs::Reading::quoted_at))]
fn quoted(alloc: Global, text: &[u8]) -> Result<(Text, &[u8]), ReadFault>
    ensures { Gives (λ t. (t.0, t.1.now)) result (quoted_at text.now) }
{
    let mut bytes = Vec::new(alloc);
    let mut rest = text;
    for _ in 0..text.len() {
        let Some((byte, more)) = character(rest) else {
            return ended(alloc, bytes.as_slice(), rest);
        };
        let Ok(()) = bytes.push(byte) else {
            return Err(ReadFault::Memory);
        };
        rest = more;
    }
    Err(ReadFault::Syntax)
}

fn text_literal(alloc: Global, text: &[u8]) -> Result<Part<'_, Literal>, ReadFault>
    ensures { Gives as_read result (text_at text.now) }
{
    let (text, rest) = quoted(alloc, text)?;
    Ok(Part {
        value: Literal::Text(text),
        rest,
    })
}

fn literal(part: Part<'_, Literal>) -> Part<'_, Term>
    ensures { as_read result ≡ literal_part (as_read part.entry) }
{
    let Part { value, rest } = part;
    Part {
        value: Term::Literal(value),
        rest,
    }
}

// A keyword or a number, if there was one.
fn if_literal<'a>(read: Option<(Literal, &'a [u8])>) -> Result<Part<'a, Term>, ReadFault>
    ensures { Gives as_read result (option_map literal_part (option_map (λ l. found l.1.now l.0) read.entry)) }
{
    let Some((value, rest)) = read else {
        return Err(ReadFault::Syntax);
    };
    Ok(literal(Part { value, rest }))
}

/// A literal or an expression, and what follows it.
#[tactic(auto, unfolding(crate::specs::Reading::plain_at))]
pub(crate) fn plain(
    alloc: Global,
    text: &[u8],
    fractions: bool,
) -> Result<Part<'_, Term>, ReadFault>
    ensures { Gives as_read result (plain_at fractions text.now) }
{
    let Some((first, rest)) = text.split_first() else {
        return Err(ReadFault::Syntax);
    };
    if *first == b'$' {
        return expression_part(alloc, text);
    }
    if *first == b'\'' {
        return Ok(literal(text_literal(alloc, rest)?));
    }
    if first.is_ascii_lowercase() {
        return if_literal(keyword(text));
    }
    if_literal(number(text, fractions))
}
