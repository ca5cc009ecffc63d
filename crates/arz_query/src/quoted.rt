// Quoted texts (string-literal of RFC 9535, section 2.3.1.1).
ghost use Rattle.std.specs.Prelude.{◌≡◌, ◌<◌, IfSome, option_map};
ghost use Rattle.arz_query.specs.Words.{Gives};
ghost use Rattle.arz_query.specs.Lexical.{hex_digit as hex_digit_of, hex_byte_at, hex_at, low_at, hex_char_at, escaped as escaped_as, escape_at, behind, piece_at, quoted_at};

use crate::pieces::ReadFault;
use crate::text::Text;
use crate::words::{after, text_of};
use std::alloc::Global;

fn hex_digit(byte: u8) -> Option<u32>
    ensures value { result ≡ hex_digit_of byte }
    ensures below { IfSome result (λ n. n < 16) }
{
    if byte.is_ascii_digit() {
        return Some((byte - b'0') as u32);
    }
    if 97 <= byte && byte <= 102 {
        return Some((byte - 87) as u32);
    }
    if 65 <= byte && byte <= 70 {
        return Some((byte - 55) as u32);
    }
    None
}

fn hex_byte(text: &[u8]) -> Option<(u32, &[u8])>
    ensures value { option_map (λ h. (h.0, h.1.now)) result ≡ hex_byte_at text.now }
    ensures below { IfSome result (λ h. h.0 < 256) }
{
    let (first, text) = text.split_first()?;
    let (second, rest) = text.split_first()?;
    let high = hex_digit(*first)?;
    let low = hex_digit(*second)?;
    Some((high * 16 + low, rest))
}

#[tactic(auto, unfolding(crate::specs::Lexical::hex_at))]
fn hex(text: &[u8]) -> Option<(u32, &[u8])>
    ensures value { option_map (λ h. (h.0, h.1.now)) result ≡ hex_at text.now }
    ensures below { IfSome result (λ h. h.0 < 65536) }
{
    let (high, text) = hex_byte(text)?;
    let (low, rest) = hex_byte(text)?;
    Some((high * 256 + low, rest))
}

// The character of a high surrogate and the low one that follows.
fn low(high: u32, text: &[u8]) -> Option<(u32, &[u8])>
    requires { high < 65536 }
    ensures { option_map (λ h. (h.0, h.1.now)) result ≡ low_at high text.now }
{
    let text = after(text, b'\\')?;
    let text = after(text, b'u')?;
    let (low, rest) = hex(text)?;
    if low < 56320 || 57343 < low {
        return None;
    }
    let offset = high.saturating_sub(55296) * 1024;
    Some((65536 + offset + low.saturating_sub(56320), rest))
}

#[tactic(auto, unfolding(crate::specs::Lexical::hex_char_at))]
fn hex_char(text: &[u8]) -> Option<(char, &[u8])>
    ensures { option_map (λ h. (h.0, h.1.now)) result ≡ hex_char_at text.now }
{
    let (code, rest) = hex(text)?;
    if 55296 <= code && code <= 56319 {
        let (code, rest) = low(code, rest)?;
        return Some((char::from_u32(code)?, rest));
    }
    Some((char::from_u32(code)?, rest))
}

#[tactic(auto, unfolding(crate::specs::Lexical::escaped))]
fn escaped(byte: u8) -> Option<char>
    ensures { result ≡ escaped_as byte }
{
    if byte == b'b' {
        return Some('\x08');
    }
    if byte == b'f' {
        return Some('\x0c');
    }
    if byte == b'n' {
        return Some('\n');
    }
    if byte == b'r' {
        return Some('\r');
    }
    if byte == b't' {
        return Some('\t');
    }
    if byte == b'/' || byte == b'\\' {
        return Some(char::from(byte));
    }
    None
}

// The character of an escape, behind its backslash.
#[tactic(auto, unfolding(crate::specs::Lexical::escape_at))]
fn escape(quote: u8, text: &[u8]) -> Option<(char, &[u8])>
    ensures { option_map (λ h. (h.0, h.1.now)) result ≡ escape_at quote text.now }
{
    let (first, rest) = text.split_first()?;
    if *first == b'u' {
        return hex_char(rest);
    }
    if *first == quote {
        return Some((char::from(*first), rest));
    }
    Some((escaped(*first)?, rest))
}

// The next character of a quoted text, as bytes behind those that are there.
#[tactic(auto, unfolding(crate::specs::Lexical::piece_at))]
fn push_piece<'a>(bytes: &mut Vec<u8>, quote: u8, text: &'a [u8]) -> Result<&'a [u8], ReadFault>
    ensures { Gives (λ rest. (bytes.new.items, rest.now)) result (option_map (behind bytes.old.items) (piece_at quote text.now)) }
{
    let Some((first, rest)) = text.split_first() else {
        return Err(ReadFault::Syntax);
    };
    if *first == b'\\' {
        let Some((c, rest)) = escape(quote, rest) else {
            return Err(ReadFault::Syntax);
        };
        let mut buffer = [0u8; 4];
        let encoded = c.encode_utf8(&mut buffer);
        bytes.extend_from_slice(encoded.as_bytes())?;
        return Ok(rest);
    }
    if *first < 32 {
        return Err(ReadFault::Syntax);
    }
    let Ok(()) = bytes.push(*first) else {
        return Err(ReadFault::Memory);
    };
    Ok(rest)
}

/// A quoted text behind its first quote, and what follows its last one.
#[tactic(auto, unfolding(crate::specs::Lexical::quoted_at))]
pub(crate) fn quoted(alloc: Global, quote: u8, text: &[u8]) -> Result<(Text, &[u8]), ReadFault>
    ensures { Gives (λ n. (n.0, n.1.now)) result (quoted_at quote text.now) }
{
    let mut bytes = Vec::new(alloc);
    let mut rest = text;
    for _ in 0..text.len() {
        if let Some(end) = after(rest, quote) {
            let text = text_of(alloc, bytes.as_slice())?;
            return Ok((text, end));
        }
        rest = push_piece(&mut bytes, quote, rest)?;
    }
    Err(ReadFault::Syntax)
}
