// What texts must be.
ghost use Rattle.std.specs.Prelude.{◌≡◌, ◌||◌, ◌==◌, IfOk, option_map, map};
ghost use Rattle.std.specs.Option.{option_copied};
ghost use Rattle.std.specs.List.{list_all, list_any};
ghost use Rattle.arz_expr.specs.Reading.{reading};
ghost use Rattle.arz_expr.specs.Grammar.{is_pointer_byte as pointer_byte, is_rooted as rooted, escapes_tildes as escapes, begins_with_digit_of_escape};
ghost use Rattle.arz_sites.specs.Texts.{is_caseless as caseless, is_header as header, is_printable as printable, is_plain_type as plain_type, is_media_type as media_type, is_expression as expression, begins as begins_with, means_value as value_is_meant, is_value_text as value_text, dotted as dotted_text, source_and_id as id_parts, source_and_pointer as path_parts, is_path_pointer as path_pointer, is_operation_path as operation_path, reserved_headers};

use arz_components::after;
use arz_expr::Expr;
use arz_json::split_once;
use arz_rules::{is_name, is_token};
use std::alloc::{AllocError, Global};

fn is_caseless(left: &str, right: &str) -> bool
    ensures { result ≡ caseless left.now right.now }
{
    left.eq_ignore_ascii_case(right)
}

fn is_reserved(text: &str) -> bool
    ensures { result ≡ list_any (λ word. caseless text.now word) reserved_headers }
{
    is_caseless(text, "host")
        || is_caseless(text, "connection")
        || is_caseless(text, "content-length")
        || is_caseless(text, "content-type")
        || is_caseless(text, "transfer-encoding")
        || is_caseless(text, "accept-encoding")
        || is_caseless(text, "cookie")
        || is_caseless(text, "te")
        || is_caseless(text, "trailer")
        || is_caseless(text, "upgrade")
        || is_caseless(text, "expect")
}

/// Whether a parameter may give a header field of this name: a token (RFC 9110, section 5.6.2) that isn't reserved.
pub fn is_header(text: &str) -> bool
    ensures { result ≡ header text.now }
{
    is_token(text) && !is_reserved(text)
}

fn are_printable(text: &[u8]) -> bool
    ensures { result ≡ list_all printable text.now }
{
    text.iter().all(|b| 31 < *b && *b < 127)
}

fn is_plain_type(text: &str) -> bool
    ensures { result ≡ plain_type text.now }
{
    let Some((kind, subtype)) = split_once(text, '/') else {
        return false;
    };
    is_token(kind) && is_token(subtype) && !is_caseless(kind, "multipart")
}

/// Whether the text is a media type that can be sent, with or without parameters.
pub fn is_media_type(text: &str) -> bool
    ensures { result ≡ media_type text.now }
{
    match split_once(text, ';') {
        Some((kind, parameters)) => is_plain_type(kind) && are_printable(parameters.as_bytes()),
        None => is_plain_type(text),
    }
}

/// Whether the text is a runtime expression (Arazzo 1.0.1, section 4.7).
pub fn is_expression(alloc: Global, text: &str) -> Result<bool, AllocError>
    ensures { IfOk result (λ b. b ≡ expression text.now) }
{
    let expr = Expr::read(alloc, text)?;
    Ok(expr.is_some())
}

fn begins(text: &str, key: &str) -> bool
    ensures { result ≡ begins_with text.now key.now }
{
    after(text, key).is_some()
}

fn means_value(text: &str) -> bool
    ensures { result ≡ value_is_meant text.now }
{
    begins(text, "$inputs.")
        || begins(text, "$outputs.")
        || begins(text, "$steps.")
        || begins(text, "$workflows.")
        || begins(text, "$request.")
        || begins(text, "$response.")
}

/// Whether a text of a value is an expression where it can only mean one.
pub fn is_value_text(alloc: Global, text: &str) -> Result<bool, AllocError>
    ensures { IfOk result (λ b. b ≡ value_text text.now) }
{
    if !means_value(text) {
        return Ok(true);
    }
    is_expression(alloc, text)
}

fn dotted(text: &str) -> Option<(&str, &str)>
    ensures { option_map (λ p. (p.0.now, p.1.now)) result ≡ dotted_text text.now }
{
    let (name, rest) = split_once(text, '.')?;
    if !is_name(name) {
        return None;
    }
    Some((name, rest))
}

/// Of an operationId `$sourceDescriptions.NAME.ID` the source's name and the operation's.
pub fn source_and_id(text: &str) -> Option<(&str, &str)>
    ensures { option_map (λ p. (p.0.now, p.1.now)) result ≡ id_parts text.now }
{
    dotted(after(text, "$sourceDescriptions.")?)
}

fn is_rooted(bytes: &[u8]) -> bool
    ensures { result ≡ rooted bytes.now }
{
    match bytes.split_first() {
        Some((first, _)) => *first == b'/',
        None => true,
    }
}

fn is_pointer_byte(byte: u8) -> bool
    ensures { result ≡ pointer_byte byte }
{
    32 < byte && byte != 127 && !b"{}()!=<>&|'".contains(&byte)
}

fn are_pointer_bytes(bytes: &[u8]) -> bool
    ensures { result ≡ list_all (λ b. pointer_byte b || b == 123 || b == 125) bytes.now }
{
    bytes
        .iter()
        .all(|b| is_pointer_byte(*b) || *b == b'{' || *b == b'}')
}

fn escapes_tildes(bytes: &[u8]) -> bool
    ensures { result ≡ escapes bytes.now }
{
    let mut rest = bytes;
    'bytes: while let Some((byte, more)) = rest.split_first() {
        if *byte == b'~' && !begins_escape(more) {
            return false;
        }
        rest = more;
    }
    true
}

fn begins_escape(bytes: &[u8]) -> bool
    ensures { result ≡ begins_with_digit_of_escape bytes.now }
{
    match bytes.split_first() {
        Some((first, _)) => *first == b'0' || *first == b'1',
        None => false,
    }
}

fn is_path_pointer(bytes: &[u8]) -> bool
    ensures { result ≡ path_pointer bytes.now }
{
    is_rooted(bytes) && are_pointer_bytes(bytes) && escapes_tildes(bytes)
}

/// Of an operationPath `{$sourceDescriptions.NAME.url}#POINTER` the source's name and the pointer.
pub fn source_and_pointer(text: &str) -> Option<(&str, &str)>
    ensures { option_map (λ p. (p.0.now, p.1.now)) result ≡ path_parts text.now }
{
    let (name, rest) = dotted(after(text, "{$sourceDescriptions.")?)?;
    let pointer = after(rest, "url}#")?;
    if !is_path_pointer(pointer.as_bytes()) {
        return None;
    }
    Some((name, pointer))
}

/// Whether the text has the form of an operationPath.
pub fn is_operation_path(text: &str) -> bool
    ensures { result ≡ operation_path text.now }
{
    source_and_pointer(text).is_some()
}
