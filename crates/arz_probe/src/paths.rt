//! Normalized paths (RFC 9535, section 2.7).

ghost use Rattle.std.specs.Prelude.{◌≡◌, ◌++◌, ◌<◌, ◌/◌, ◌%◌, ◌∷◌, [], codes, OnOk};
ghost use Rattle.std.specs.List.{flat_map};
ghost use Rattle.arz_json.specs.declared.place.Token.TheVariants.{Name, Index};
ghost use Rattle.arz_probe.specs.Paths.{hex_digit as hex_digit_of, quoted_byte, step_text, normalized};

use arz_path::{Place, Token};
use std::alloc::AllocError;

/// Adds the normalized path of a place to a text.
pub fn push_path(text: &mut Vec<u8>, place: &Place) -> Result<(), AllocError>
    ensures { OnOk result (text.new.items ≡ text.old.items ++ normalized place.now.tokens) }
{
    text.push(b'$')?;
    push_steps(text, place.tokens.as_slice())
}

fn push_steps(text: &mut Vec<u8>, steps: &[Token]) -> Result<(), AllocError>
    ensures { OnOk result (text.new.items ≡ text.old.items ++ flat_map step_text steps.now) }
{
    for step in steps {
        push_step(text, step)?;
    }
    Ok(())
}

fn push_step(text: &mut Vec<u8>, step: &Token) -> Result<(), AllocError>
    ensures { OnOk result (text.new.items ≡ text.old.items ++ step_text step.now) }
{
    match step {
        Token::Index(index) => push_index(text, *index),
        Token::Name(name) => push_name(text, name.as_str()),
    }
}

fn push_index(text: &mut Vec<u8>, index: u64) -> Result<(), AllocError>
    ensures { OnOk result (text.new.items ≡ text.old.items ++ step_text (Index index)) }
{
    let mut digits = itoa::Buffer::new();
    text.push(b'[')?;
    text.extend_from_slice(digits.format(index).as_bytes())?;
    text.push(b']')?;
    Ok(())
}

fn push_name(text: &mut Vec<u8>, name: &str) -> Result<(), AllocError>
    ensures { OnOk result (text.new.items ≡ text.old.items ++ step_text (Name name.now)) }
{
    text.extend_from_slice(b"['")?;
    push_quoted(text, name.as_bytes())?;
    text.extend_from_slice(b"']")
}

fn push_quoted(text: &mut Vec<u8>, name: &[u8]) -> Result<(), AllocError>
    ensures { OnOk result (text.new.items ≡ text.old.items ++ flat_map quoted_byte name.now) }
{
    for byte in name {
        push_byte(text, *byte)?;
    }
    Ok(())
}

fn push_byte(text: &mut Vec<u8>, byte: u8) -> Result<(), AllocError>
    ensures { OnOk result (text.new.items ≡ text.old.items ++ quoted_byte byte) }
{
    if byte == 8 {
        return text.extend_from_slice(b"\\b");
    }
    if byte == b'\t' {
        return text.extend_from_slice(b"\\t");
    }
    if byte == b'\n' {
        return text.extend_from_slice(b"\\n");
    }
    if byte == 12 {
        return text.extend_from_slice(b"\\f");
    }
    if byte == b'\r' {
        return text.extend_from_slice(b"\\r");
    }
    if byte == b'\'' {
        return text.extend_from_slice(b"\\'");
    }
    if byte == b'\\' {
        return text.extend_from_slice(b"\\\\");
    }
    if byte < b' ' {
        return push_control(text, byte);
    }
    text.push(byte)?;
    Ok(())
}

fn push_control(text: &mut Vec<u8>, byte: u8) -> Result<(), AllocError>
    requires { byte < 32 }
    ensures { OnOk result (text.new.items ≡ text.old.items ++ (codes "\\u00" ++ (hex_digit_of (byte / 16) ∷ hex_digit_of (byte % 16) ∷ []))) }
{
    text.extend_from_slice(b"\\u00")?;
    text.push(hex_digit(byte / 16))?;
    text.push(hex_digit(byte % 16))?;
    Ok(())
}

fn hex_digit(n: u8) -> u8
    requires { n < 16 }
    ensures { result ≡ hex_digit_of n }
{
    if n < 10 { b'0' + n } else { b'a' - 10 + n }
}
