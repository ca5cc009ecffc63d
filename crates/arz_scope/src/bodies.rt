// The body of a reply as a value (RFC 9110, 8.3 and 8.4).
ghost use Rattle.std.specs.Prelude.{◌≡◌, ◌==◌, IfOk, find, reverse};
ghost use Rattle.std.specs.List.{before_first, list_all};
ghost use Rattle.std.specs.Option.{option_copied};
ghost use Rattle.arz_scope.specs.Bodies.{body_value, json_of as json_in, kind_of as kind_by_lines, kind_of_type as kind_of_media_type, has_name, media_type as media_type_in, trimmed as trimmed_text, skip_blanks as without_blanks, is_blank as is_blank_byte};
ghost use Rattle.arz_scope.specs.Kinds.{kind_seen, is_plain_line as is_plain_by_line};

use crate::fields::text_of;
use arz_json::{Json, JsonFault, read};
use arz_world::{Header, Reply};
use std::alloc::{AllocError, Global};

/// How a body is read.
#[derive(Clone, Copy, Debug, PartialEq, Eq)]
pub enum BodyKind {
    /// As JSON.
    Json,
    /// As a text.
    Text,
    /// Not at all.
    Unread,
}

/// The value of the body, or `None` where it isn't read as one.
pub fn body_of(alloc: Global, reply: &Reply) -> Result<Option<Json>, AllocError>
    ensures { IfOk result (λ value. value ≡ body_value reply.now) }
{
    let body = reply.body.as_slice();
    if body.is_empty() {
        return Ok(None);
    }
    match kind_of(alloc, reply)? {
        BodyKind::Json => json_of(alloc, body),
        BodyKind::Text => text_of(alloc, body),
        BodyKind::Unread => Ok(None),
    }
}

// The bytes as a JSON value, where they are one.
fn json_of(alloc: Global, bytes: &[u8]) -> Result<Option<Json>, AllocError>
    ensures { IfOk result (λ value. value ≡ json_in bytes.now) }
{
    match read(alloc, bytes, u64::MAX) {
        Ok(value) => Ok(Some(value)),
        Err(JsonFault::Memory) => Err(AllocError),
        Err(JsonFault::NotJson | JsonFault::TooLarge) => Ok(None),
    }
}

fn kind_of(alloc: Global, reply: &Reply) -> Result<BodyKind, AllocError>
    ensures { IfOk result (λ kind. kind_seen kind ≡ kind_by_lines reply.now) }
{
    let headers = reply.headers.as_slice();
    if !is_plain(headers) {
        return Ok(BodyKind::Unread);
    }
    match first_named(headers, "content-type") {
        None => Ok(BodyKind::Json),
        Some(header) => {
            let kind = media_type(alloc, header.value.as_slice())?;
            Ok(kind_of_type(kind.as_slice()))
        }
    }
}

fn kind_of_type(kind: &[u8]) -> BodyKind
    ensures { kind_seen result ≡ kind_of_media_type kind.now }
{
    if kind == b"application/json".as_slice() || kind.ends_with(b"+json") {
        BodyKind::Json
    } else if kind.starts_with(b"text/")
        || kind == b"application/x-www-form-urlencoded".as_slice()
    {
        BodyKind::Text
    } else {
        BodyKind::Unread
    }
}

// No `content-encoding` names another coding than `identity`.
fn is_plain(headers: &[Header]) -> bool
    ensures { result ≡ list_all is_plain_by_line headers.now }
{
    headers.iter().all(|h| is_plain_line(h))
}

fn is_plain_line(header: &Header) -> bool
    ensures { result ≡ is_plain_by_line header.now }
{
    !is_named(header, "content-encoding")
        || header.value.as_slice().eq_ignore_ascii_case(b"identity")
}

fn first_named<'a>(headers: &'a [Header], name: &str) -> Option<&'a Header>
    ensures { option_copied result ≡ find (has_name name.now) headers.now }
{
    headers.iter().find(|h| is_named(h, name))
}

fn is_named(header: &Header, name: &str) -> bool
    ensures { result ≡ has_name name.now header.now }
{
    header.name.as_str().eq_ignore_ascii_case(name)
}

// The media type without its parameters, in lower case.
fn media_type(alloc: Global, value: &[u8]) -> Result<Vec<u8>, AllocError>
    ensures { IfOk result (λ kind. kind.items ≡ media_type_in value.now) }
{
    let mut kind = trimmed(before_parameters(value)).to_vec(alloc)?;
    kind.make_ascii_lowercase();
    Ok(kind)
}

// What stands before the first `;`.
fn before_parameters(value: &[u8]) -> &[u8]
    ensures { result.now ≡ before_first (λ b. b == 59) value.now }
{
    for (i, byte) in value.iter().enumerate() {
        if *byte == b';' {
            return &value[..i];
        }
    }
    value
}

fn is_blank(byte: u8) -> bool
    ensures { result ≡ is_blank_byte byte }
{
    byte == b' ' || byte == b'\t'
}

// Without the blanks at both ends.
fn trimmed(text: &[u8]) -> &[u8]
    ensures { result.now ≡ trimmed_text text.now }
{
    trimmed_end(trimmed_start(text))
}

fn trimmed_start(text: &[u8]) -> &[u8]
    ensures { result.now ≡ without_blanks text.now }
{
    let mut rest = text;
    'blanks: while let [first, more @ ..] = rest {
        if !is_blank(*first) {
            return rest;
        }
        rest = more;
    }
    rest
}

fn trimmed_end(text: &[u8]) -> &[u8]
    ensures { result.now ≡ reverse (without_blanks (reverse text.now)) }
{
    let mut rest = text;
    'blanks: while let [more @ .., last] = rest {
        if !is_blank(*last) {
            return rest;
        }
        rest = more;
    }
    rest
}
