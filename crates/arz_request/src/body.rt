// The body of a request (Arazzo 1.0.1, section 4.6.13; OpenAPI 3.1.1, sections 4.8.13 and 4.8.14).
ghost use Rattle.std.specs.Prelude.{◌≡◌, IfOk};
ghost use Rattle.std.specs.List.{list_any};
ghost use Rattle.std.specs.Str.{bytes_eq};
ghost use Rattle.arz_json.specs.Answer.{Gives};
ghost use Rattle.arz_json.specs.Look.{text_in};
ghost use Rattle.arz_json.specs.Shallow.{IsShallow};
ghost use Rattle.arz_request.specs.Causes.{told};
ghost use Rattle.arz_request.specs.MediaTypes.{media_type_of};
ghost use Rattle.arz_request.specs.Payloads.{bytes_as, content_of, first_or_json as first_type, is_plain_text as plain_text, is_json_text as json_text, json_bytes as bytes_of_json, json_type, kind_of as kind_by, listed_kind as kind_listed, stays_text as is_sent_as_text, text_alone, value_of, written_as};

use crate::cause::{BuildFault, Cause};
use crate::filling::filled;
use crate::media_types::{MediaType, is_sendable, media_type};
use crate::replacements::changed;
use arz_expr::{Body, Expr, Scope};
use arz_json::{Bytes, Json, Text, compact};
use arz_style::form;
use std::alloc::{AllocError, Global};

/// What stands in a request: its media type, the value that was written, and its bytes.
#[derive(Debug, Drop)]
pub(crate) struct Content {
    pub kind: Text,
    pub payload: Json,
    pub bytes: Bytes,
}

/// The content of a body for an operation that takes these media types: its payload filled, with its replacements made,
/// and written as its media type. The first cause is told: of the filling, the reading of a text of JSON, the
/// replacements in order, and the writing. The payload nests at most 127 deep.
pub(crate) fn content_for<S: Scope>(
    alloc: Global,
    types: &[Text],
    body: &Body,
    scope: &S,
) -> Result<Content, BuildFault>
    ensures content { Gives (λ content. content) told result (content_of (S.found scope.now) types.now body.now) }
    ensures shallow { IfOk result (λ content. IsShallow content.payload) }
{
    let kind = kind_of(alloc, types, body)?;
    let media = media_type(alloc, kind.as_str())?;
    let payload = value(alloc, media, body, scope)?;
    let bytes = written(alloc, kind.as_str(), media, body, &payload)?;
    Ok(Content {
        kind,
        payload,
        bytes,
    })
}

// ---- the media type

// The body's own, else the one that the operation's list gives.
fn kind_of(alloc: Global, types: &[Text], body: &Body) -> Result<Text, AllocError>
    ensures { IfOk result (λ kind. kind ≡ kind_by types.now body.now) }
{
    match &body.kind {
        Some(kind) => kind.copy(alloc),
        None => Text::from_str(alloc, listed_kind(types)),
    }
}

fn listed_kind(types: &[Text]) -> &str
    ensures { result.now ≡ kind_listed types.now }
{
    if lists_json(types) {
        return "application/json";
    }
    first_or_json(types)
}

fn lists_json(types: &[Text]) -> bool
    ensures { result ≡ list_any (λ type. bytes_eq type json_type) types.now }
{
    types.iter().any(|t| is_json_type(t))
}

fn is_json_type(listed: &Text) -> bool
    ensures { result ≡ bytes_eq listed.now json_type }
{
    listed.as_str() == "application/json"
}

fn first_or_json(types: &[Text]) -> &str
    ensures { result.now ≡ first_type types.now }
{
    match types {
        [first, ..] => first.as_str(),
        [] => "application/json",
    }
}

// ---- the payload

// The payload filled, and with its replacements made.
fn value<S: Scope>(
    alloc: Global,
    media: MediaType,
    body: &Body,
    scope: &S,
) -> Result<Json, BuildFault>
    ensures value { Gives (λ value. value) told result (value_of (S.found scope.now) media body.now) }
    ensures shallow { IfOk result IsShallow }
{
    let payload = filled(alloc, &body.payload, scope)?;
    let is_json_text = is_json_text(alloc, media, body)?;
    changed(
        alloc,
        is_json_text,
        payload,
        body.replacements.as_slice(),
        scope,
    )
}

// Whether the payload's template is a text of JSON.
fn is_json_text(alloc: Global, media: MediaType, body: &Body) -> Result<bool, AllocError>
    ensures { IfOk result (λ b. b ≡ json_text media body.now) }
{
    if !media.is_json() {
        return Ok(false);
    }
    is_plain_text(alloc, body.payload.tree())
}

// Whether the template is a text, and no expression.
fn is_plain_text(alloc: Global, template: &Json) -> Result<bool, AllocError>
    ensures { IfOk result (λ b. b ≡ plain_text template.now) }
{
    let Some(text) = template.as_text() else {
        return Ok(false);
    };
    let expression = Expr::read(alloc, text)?;
    Ok(expression.is_none())
}

// ---- writing

fn written(
    alloc: Global,
    kind: &str,
    media: MediaType,
    body: &Body,
    value: &Json,
) -> Result<Bytes, BuildFault>
    requires media { media ≡ media_type_of kind.now }
    requires value { IsShallow value.now }
    ensures { Gives (λ bytes. bytes) told result (written_as kind.now body.now value.now) }
{
    if !is_sendable(kind) {
        return Err(BuildFault::Stuck(Cause::NotSerializable));
    }
    bytes(alloc, media, body, value)
}

fn bytes(alloc: Global, media: MediaType, body: &Body, value: &Json) -> Result<Bytes, BuildFault>
    requires { IsShallow value.now }
    ensures { Gives (λ bytes. bytes) told result (bytes_as media body.now value.now) }
{
    match media {
        MediaType::Json => json_bytes(alloc, body, value),
        MediaType::Form => Ok(form(alloc, value)?),
        MediaType::Text => text_bytes(alloc, value),
    }
}

// As JSON; a text that was no expression, and in which nothing was replaced, is one already.
fn json_bytes(alloc: Global, body: &Body, value: &Json) -> Result<Bytes, BuildFault>
    requires { IsShallow value.now }
    ensures { Gives (λ bytes. bytes) told result (bytes_of_json body.now value.now) }
{
    if stays_text(alloc, body)? {
        return text_bytes(alloc, value);
    }
    Ok(compact(alloc, value)?)
}

fn stays_text(alloc: Global, body: &Body) -> Result<bool, AllocError>
    ensures { IfOk result (λ b. b ≡ is_sent_as_text body.now) }
{
    if !body.replacements.is_empty() {
        return Ok(false);
    }
    is_plain_text(alloc, body.payload.tree())
}

// The bytes of a text; no other value has some.
fn text_bytes(alloc: Global, value: &Json) -> Result<Bytes, BuildFault>
    ensures { Gives (λ bytes. bytes) told result (text_alone (text_in value.now)) }
{
    let Some(text) = value.as_text() else {
        return Err(BuildFault::Stuck(Cause::NotSerializable));
    };
    Ok(Bytes::from_std(text.as_bytes().to_vec(alloc)?))
}
