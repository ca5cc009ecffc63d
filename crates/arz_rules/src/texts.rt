// Texts of a stated form.
ghost use Rattle.std.specs.Prelude.{◌≡◌, IfOk, false};
ghost use Rattle.std.specs.List.{list_all};
ghost use Rattle.arz_rules.specs.Texts.{is_digit as a_digit, is_filled, is_name_byte as a_name_byte, is_name as a_name, is_prefixed as a_prefixed, is_version as a_version, is_token_byte as a_token_byte, is_token as a_token, is_field_byte as a_field_byte, is_field_value as a_field_value, are_escapes, is_pointer as a_pointer};
ghost use Rattle.arz_rules.specs.Place.{least, tokens_in};
ghost use Rattle.arz_rules.specs.Sets.{bad_names_in};

use crate::place::{below_name, lesser, root_unless};
use crate::sites::Check;
use arz_json::{Json, Member, Place};
use std::alloc::{AllocError, Global};

fn is_name_byte(byte: u8) -> bool
    ensures { result ≡ a_name_byte byte }
{
    byte.is_ascii_alphanumeric() || byte == b'_' || byte == b'-'
}

/// Whether the text is a name: one or more of `A-Z a-z 0-9 _ -`.
pub fn is_name(text: &str) -> bool
    ensures { result ≡ a_name text.now }
{
    !text.is_empty() && are_name_bytes(text.as_bytes())
}

fn are_name_bytes(bytes: &[u8]) -> bool
    ensures { result ≡ list_all a_name_byte bytes.now }
{
    bytes.iter().all(|b| is_name_byte(*b))
}

/// Whether the text is the prefix, followed by a name.
pub fn is_prefixed(prefix: &str, text: &str) -> bool
    ensures { result ≡ a_prefixed prefix.now text.now }
{
    match text.strip_prefix(prefix) {
        Some(rest) => is_name(rest),
        None => false,
    }
}

/// Whether the text is a version of the line that the prefix begins, as `1.0.`: the prefix, followed by
/// one digit or more.
pub fn is_version(prefix: &str, text: &str) -> bool
    ensures { result ≡ a_version prefix.now text.now }
{
    match text.strip_prefix(prefix) {
        Some(rest) => is_number(rest),
        None => false,
    }
}

fn is_number(text: &str) -> bool
    ensures { result ≡ is_filled a_digit text.now }
{
    !text.is_empty() && are_digits(text.as_bytes())
}

fn are_digits(bytes: &[u8]) -> bool
    ensures { result ≡ list_all a_digit bytes.now }
{
    bytes.iter().all(|b| b.is_ascii_digit())
}

fn is_token_byte(byte: u8) -> bool
    ensures { result ≡ a_token_byte byte }
{
    byte.is_ascii_alphanumeric() || b"!#$%&'*+-.^_`|~".contains(&byte)
}

/// Whether the text is a token (RFC 9110, section 5.6.2).
pub fn is_token(text: &str) -> bool
    ensures { result ≡ a_token text.now }
{
    !text.is_empty() && are_token_bytes(text.as_bytes())
}

fn are_token_bytes(bytes: &[u8]) -> bool
    ensures { result ≡ list_all a_token_byte bytes.now }
{
    bytes.iter().all(|b| is_token_byte(*b))
}

fn is_field_byte(byte: u8) -> bool
    ensures { result ≡ a_field_byte byte }
{
    byte == b'\t' || (32 <= byte && byte != 127)
}

/// Whether the text has no control character but the tab.
pub fn is_field_value(text: &str) -> bool
    ensures { result ≡ a_field_value text.now }
{
    text.as_bytes().iter().all(|b| is_field_byte(*b))
}

/// Whether the text is that of a JSON Pointer (RFC 6901, section 3).
pub fn is_pointer(text: &str) -> bool
    ensures { result ≡ a_pointer text.now }
{
    match text.as_bytes().split_first() {
        Some((first, rest)) => *first == b'/' && has_escapes(rest),
        None => true,
    }
}

fn has_escapes(bytes: &[u8]) -> bool
    ensures { result ≡ are_escapes false bytes.now }
{
    let mut after_tilde = false;
    for byte in bytes {
        if after_tilde && *byte != b'0' && *byte != b'1' {
            return false;
        }
        after_tilde = !after_tilde && *byte == b'~';
    }
    !after_tilde
}

/// The check that a text is a version of the line that a prefix begins.
#[derive(Clone, Copy, Debug)]
pub struct BadVersion {
    /// The prefix, as `1.0.`.
    pub prefix: &'static str,
}

impl Check for BadVersion {
    ghost use Rattle.arz_rules.specs.Texts.{is_version};
    ghost use Rattle.arz_rules.specs.Sets.{bad_text};

    ghost places = { λ c. bad_text (is_version c.prefix.now) };

    fn first(&self, alloc: Global, tree: &Json) -> Result<Option<Place>, AllocError> {
        Ok(match tree.as_text() {
            Some(text) => root_unless(alloc, is_version(self.prefix, text)),
            None => None,
        })
    }
}

/// The check that a text is a name.
#[derive(Clone, Copy, Debug)]
pub struct BadName {}

impl Check for BadName {
    ghost use Rattle.arz_rules.specs.Texts.{is_name};
    ghost use Rattle.arz_rules.specs.Sets.{bad_text};

    ghost places = { λ _. bad_text is_name };

    fn first(&self, alloc: Global, tree: &Json) -> Result<Option<Place>, AllocError> {
        Ok(match tree.as_text() {
            Some(text) => root_unless(alloc, is_name(text)),
            None => None,
        })
    }
}

/// The check that the members of an object have names.
#[derive(Clone, Copy, Debug)]
pub struct BadNames {}

impl Check for BadNames {
    ghost use Rattle.arz_rules.specs.Texts.{is_name};
    ghost use Rattle.arz_rules.specs.Sets.{bad_names};

    ghost places = { λ _. bad_names is_name };

    fn first(&self, alloc: Global, tree: &Json) -> Result<Option<Place>, AllocError> {
        match tree.as_object() {
            Some(members) => first_bad_name(alloc, members),
            None => Ok(None),
        }
    }
}

fn first_bad_name(alloc: Global, members: &[Member]) -> Result<Option<Place>, AllocError>
    ensures { IfOk result (λ p. tokens_in p ≡ least (bad_names_in a_name members.now)) }
{
    let mut best = None;
    for member in members {
        let found = root_unless(alloc, is_name(member.name.as_str()));
        best = lesser(best, below_name(alloc, member.name.as_str(), found)?);
    }
    Ok(best)
}
