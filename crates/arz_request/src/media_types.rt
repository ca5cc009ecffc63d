// Media types (RFC 9110, section 8.3.1), and how a payload of each is written.
ghost use Rattle.std.specs.Prelude.{◌≡◌, ◌==◌, IfOk, reverse};
ghost use Rattle.std.specs.List.{before_first, list_all};
ghost use Rattle.arz_request.specs.MediaTypes.{essence as essence_of, is_as_json as as_json, is_blank as blank, is_multipart as multipart, is_plain_type as plain_type, is_printable as printable, is_sendable as sendable, media_type_in as type_in, media_type_of, skip_blanks, trimmed as without_blanks};

use arz_json::split_once;
use arz_rules::is_token;
use std::alloc::{AllocError, Global};

/// How a payload is written.
#[derive(Clone, Copy, Debug, PartialEq, Eq)]
pub(crate) enum MediaType {
    /// As JSON.
    Json,
    /// As a form.
    Form,
    /// As the text that it is.
    Text,
}

// ---- what may be sent

fn are_printable(bytes: &[u8]) -> bool
    ensures { result ≡ list_all printable bytes.now }
{
    bytes.iter().all(|b| 31 < *b && *b < 127)
}

fn is_multipart(text: &str) -> bool
    ensures { result ≡ multipart text.now }
{
    text.eq_ignore_ascii_case("multipart")
}

fn is_plain_type(text: &str) -> bool
    ensures { result ≡ plain_type text.now }
{
    let Some((kind, subtype)) = split_once(text, '/') else {
        return false;
    };
    is_token(kind) && is_token(subtype) && !is_multipart(kind)
}

/// Whether a body of this media type can be sent: one of two tokens that isn't `multipart`, with or without parameters
/// of printable ASCII.
pub(crate) fn is_sendable(text: &str) -> bool
    ensures { result ≡ sendable text.now }
{
    match split_once(text, ';') {
        Some((kind, parameters)) => is_plain_type(kind) && are_printable(parameters.as_bytes()),
        None => is_plain_type(text),
    }
}

// ---- the type without its parameters, in lower case

// What stands before the first `;`.
fn before_parameters(kind: &[u8]) -> &[u8]
    ensures { result.now ≡ before_first (λ b. b == 59) kind.now }
{
    for (i, byte) in kind.iter().enumerate() {
        if *byte == b';' {
            return &kind[..i];
        }
    }
    kind
}

fn is_blank(byte: u8) -> bool
    ensures { result ≡ blank byte }
{
    byte == b' ' || byte == b'\t'
}

fn trimmed_start(text: &[u8]) -> &[u8]
    ensures { result.now ≡ skip_blanks text.now }
{
    let mut rest = text;
    'blanks: while let [first, more @ ..] = rest {
        if !is_blank(*first) {
            return rest;
        }
        rest = more;
    }
    rest
}

fn trimmed_end(text: &[u8]) -> &[u8]
    ensures { result.now ≡ reverse (skip_blanks (reverse text.now)) }
{
    let mut rest = text;
    'blanks: while let [more @ .., last] = rest {
        if !is_blank(*last) {
            return rest;
        }
        rest = more;
    }
    rest
}

// Without the blanks at both ends.
fn trimmed(text: &[u8]) -> &[u8]
    ensures { result.now ≡ without_blanks text.now }
{
    trimmed_end(trimmed_start(text))
}

fn essence(alloc: Global, kind: &[u8]) -> Result<Vec<u8>, AllocError>
    ensures { IfOk result (λ type. type.items ≡ essence_of kind.now) }
{
    let mut essence = trimmed(before_parameters(kind)).to_vec(alloc)?;
    essence.make_ascii_lowercase();
    Ok(essence)
}

// ---- how a payload is written

fn media_type_in(essence: &[u8]) -> MediaType
    ensures { result ≡ type_in essence.now }
{
    if essence == b"application/json".as_slice() || essence.ends_with(b"+json") {
        MediaType::Json
    } else if essence == b"application/x-www-form-urlencoded".as_slice() {
        MediaType::Form
    } else {
        MediaType::Text
    }
}

/// How a payload of a media type is written. Parameters, blanks around the type and the case of its letters count for
/// nothing.
pub(crate) fn media_type(alloc: Global, kind: &str) -> Result<MediaType, AllocError>
    ensures { IfOk result (λ type. type ≡ media_type_of kind.now) }
{
    let essence = essence(alloc, kind.as_bytes())?;
    Ok(media_type_in(essence.as_slice()))
}

impl MediaType {
    /// Whether a payload is written as JSON.
    pub(crate) fn is_json(self) -> bool
        ensures { result ≡ as_json self }
    {
        matches!(self, MediaType::Json)
    }
}
