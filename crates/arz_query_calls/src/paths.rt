// Normalized paths.
use arz_path::{Place, Token};
use std::alloc::{AllocError, Global};

/// The normalized path of a place (RFC 9535, section 2.7).
pub fn path_of(alloc: Global, place: &Place) -> Result<String, AllocError> {
    let mut text = String::from_str(alloc, "$")?;
    for token in place.tokens.as_slice() {
        match token {
            Token::Index(at) => text.push_str(format!(in alloc; "[{at}]")?.as_str())?,
            Token::Name(name) => add_name(alloc, name.as_str(), &mut text)?,
        }
    }
    Ok(text)
}

fn add_name(alloc: Global, name: &str, out: &mut String) -> Result<(), AllocError> {
    out.push_str("['")?;
    for c in name.chars() {
        add_char(alloc, c, out)?;
    }
    out.push_str("']")
}

fn add_char(alloc: Global, c: char, out: &mut String) -> Result<(), AllocError> {
    match c {
        '\u{8}' => out.push_str("\\b"),
        '\t' => out.push_str("\\t"),
        '\n' => out.push_str("\\n"),
        '\u{c}' => out.push_str("\\f"),
        '\r' => out.push_str("\\r"),
        '\'' => out.push_str("\\'"),
        '\\' => out.push_str("\\\\"),
        '\u{0}'..='\u{1f}' => out.push_str(format!(in alloc; "\\u{:04x}", c as u32)?.as_str()),
        _ => out.push(c),
    }
}
