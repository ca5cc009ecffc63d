// Places as JSON Pointers.
ghost use Rattle.std.specs.Prelude.{◌≡◌, ◌++◌, OnOk, IfOk, string_bytes};
ghost use Rattle.std.specs.Fmt.{decimal};
ghost use Rattle.arz_rules.specs.Pointer.{escaped, escaped_char, token_text, pointer_text as text_of};

use arz_json::{Place, Text, Token};
use std::alloc::{AllocError, Global};
use std::fmt::Write;

/// The place as the text of a JSON Pointer (RFC 6901).
pub fn pointer_text(alloc: Global, place: &Place) -> Result<Text, AllocError>
    ensures { IfOk result (λ t. t ≡ text_of place.now.tokens) }
{
    let mut out = String::new(alloc);
    push_tokens(&mut out, place.tokens.as_slice())?;
    Ok(Text::from_std(out))
}

fn push_tokens(out: &mut String, tokens: &[Token]) -> Result<(), AllocError>
    ensures { OnOk result (string_bytes out.new ≡ string_bytes out.old ++ text_of tokens.now) }
{
    for token in tokens {
        push_token(out, token)?;
    }
    Ok(())
}

fn push_token(out: &mut String, token: &Token) -> Result<(), AllocError>
    ensures { OnOk result (string_bytes out.new ≡ string_bytes out.old ++ token_text token.now) }
{
    out.push_str("/")?;
    match token {
        Token::Name(name) => push_escaped(out, name.as_str()),
        Token::Index(index) => push_index(out, *index),
    }
}

fn push_index(out: &mut String, index: u64) -> Result<(), AllocError>
    ensures { OnOk result (string_bytes out.new ≡ string_bytes out.old ++ decimal index) }
{
    write!(out, "{index}")
}

fn push_escaped(out: &mut String, name: &str) -> Result<(), AllocError>
    ensures { OnOk result (string_bytes out.new ≡ string_bytes out.old ++ escaped name.now) }
{
    for c in name.chars() {
        push_char(out, c)?;
    }
    Ok(())
}

fn push_char(out: &mut String, c: char) -> Result<(), AllocError>
    ensures { OnOk result (string_bytes out.new ≡ string_bytes out.old ++ escaped_char c) }
{
    match c {
        '~' => out.push_str("~0"),
        '/' => out.push_str("~1"),
        other => out.push(other),
    }
}
