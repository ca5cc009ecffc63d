// The parameters that are given, filled and written.
ghost use Rattle.std.specs.Prelude.{◌≡◌, IfOk, IsUtf8, reverse};
ghost use Rattle.std.specs.List.{list_all};
ghost use Rattle.arz_json.specs.Answer.{Gives};
ghost use Rattle.arz_json.specs.Shallow.{IsShallow};
ghost use Rattle.arz_operation.specs.Parameters.{default_style, is_form as form_style};
ghost use Rattle.arz_request.specs.Causes.{told};
ghost use Rattle.arz_request.specs.Parameters.{style_for, explode_for, escapes as escaped_in, is_field_byte as field_byte, begins_blank as blank_first, is_field_value as field_value, sendable as sendable_at, expansion as expansion_of, written, written_as, all_written};

use crate::cause::{BuildFault, Cause};
use crate::described::ByPlace;
use crate::filling::filled;
use arz_expr::{Given, Scope};
use arz_json::{Bytes, Json, Location, Style, Text};
use arz_style::expand;
use arz_world::Sent;
use std::alloc::Global;
use std::marker::Model;

/// A parameter as it is given: its value, and the text of that in its style.
#[derive(Drop)]
pub(crate) struct Written {
    sent: Sent,
    text: Text,
}

impl Model for Written {
    ghost use Rattle.std.specs.Coded.{codes};
    ghost use Rattle.arz_json.specs.contracts.tree.Json as json;
    ghost use Rattle.arz_json.specs.Shallow.{IsShallow};
    ghost use Rattle.arz_request.specs.Parameters as parameters;

    ghost Value = { parameters.Written };

    ghost coded = { Prim.hlevel (codes, json.the_row.coded) };

    ghost view = { λ w. record { sent = w.sent; text = w.text } };

    ghost invariant = { λ w. IsShallow w.sent.value };
}

impl Written {
    /// Where the parameter stands.
    pub fn place(&self) -> Location
        ensures { result ≡ self.now.sent.place }
    {
        self.sent.place
    }

    /// The parameter's name.
    pub fn name(&self) -> &str
        ensures { result.now ≡ self.now.sent.name }
    {
        self.sent.name.as_str()
    }

    /// The text of its value.
    pub fn text(&self) -> &str
        ensures { result.now ≡ self.now.text }
    {
        self.text.as_str()
    }

    /// Its value.
    pub fn into_sent(self) -> Sent
        ensures sent { result ≡ self.sent }
        ensures shallow { IsShallow result.value }
    {
        let Written { sent, text: _ } = self;
        sent
    }
}

/// The parameters that are given (Arazzo 1.0.1, section 4.6.6), in order, each filled and written in the style that the
/// described parameter of its name and place has; up to the first that can't be.
pub(crate) fn write_all<S: Scope>(
    alloc: Global,
    described: &ByPlace,
    given: &[Given],
    scope: &S,
) -> Result<Vec<Written>, BuildFault>
    ensures { Gives (λ all. all.items) told result (all_written (S.found scope.now) described.now given.now) }
{
    let mut all = Vec::new(alloc);
    for parameter in given {
        all.push(write(alloc, described, parameter, scope)?)?;
    }
    Ok(all)
}

fn write<S: Scope>(
    alloc: Global,
    described: &ByPlace,
    given: &Given,
    scope: &S,
) -> Result<Written, BuildFault>
    ensures { Gives (λ w. w) told result (written (S.found scope.now) described.now given.now) }
{
    let value = filled(alloc, &given.value, scope)?;
    write_value(alloc, described, given, value)
}

fn write_value(
    alloc: Global,
    described: &ByPlace,
    given: &Given,
    value: Json,
) -> Result<Written, BuildFault>
    requires { IsShallow value }
    ensures { Gives (λ w. w) told result (written_as described.now given.now value) }
{
    let text = sendable(given.place, expansion(alloc, described, given, &value)?)?;
    let name = given.name.copy(alloc)?;
    let place = given.place;
    let sent = Sent { place, name, value };
    Ok(Written { sent, text })
}

// ---- the style

/// How a value is written.
#[derive(Clone, Copy)]
struct Writing {
    style: Style,
    explode: bool,
}

// As the described parameter says, else by the defaults of the place (OpenAPI 3.1.1, section 4.8.12.2).
fn writing_for(described: &ByPlace, given: &Given) -> Writing
    ensures style { result.style ≡ style_for described.now given.now }
    ensures explode { result.explode ≡ explode_for described.now given.now }
{
    match described.find(given.place, given.name.as_str()) {
        Some(parameter) => Writing {
            style: parameter.style,
            explode: parameter.explode,
        },
        None => usual(given.place),
    }
}

fn usual(place: Location) -> Writing
    ensures style { result.style ≡ default_style place }
    ensures explode { result.explode ≡ form_style (default_style place) }
{
    match place {
        Location::Path | Location::Header => Writing {
            style: Style::Simple,
            explode: false,
        },
        Location::Query | Location::Cookie => Writing {
            style: Style::Form,
            explode: true,
        },
    }
}

fn escapes(place: Location) -> bool
    ensures { result ≡ escaped_in place }
{
    !matches!(place, Location::Header)
}

fn expansion(
    alloc: Global,
    described: &ByPlace,
    given: &Given,
    value: &Json,
) -> Result<Text, BuildFault>
    ensures { Gives (λ t. t) told result (expansion_of described.now given.now value.now) }
{
    let Writing { style, explode } = writing_for(described, given);
    let escape = escapes(given.place);
    let bytes = expand(alloc, style, explode, escape, given.name.as_str(), value)?;
    Ok(text_of(bytes))
}

fn text_of(bytes: Bytes) -> Text
    requires { IsUtf8 bytes }
    ensures { result ≡ bytes }
{
    let Ok(text) = String::from_utf8(bytes.into_std()) else {
        unreachable!();
    };
    Text::from_std(text)
}

// ---- the value of a header line

fn sendable(place: Location, text: Text) -> Result<Text, BuildFault>
    ensures { Gives (λ t. t) told result (sendable_at place text) }
{
    match place {
        Location::Header => header_value(text),
        Location::Path | Location::Query | Location::Cookie => Ok(text),
    }
}

fn header_value(text: Text) -> Result<Text, BuildFault>
    ensures { Gives (λ t. t) told result (sendable_at Location.Header text) }
{
    if is_field_value(text.as_str().as_bytes()) {
        Ok(text)
    } else {
        Err(BuildFault::Stuck(Cause::BadHeaderValue))
    }
}

fn is_field_value(bytes: &[u8]) -> bool
    ensures { result ≡ field_value bytes.now }
{
    are_field_bytes(bytes) && !begins_blank(bytes) && !ends_blank(bytes)
}

fn are_field_bytes(bytes: &[u8]) -> bool
    ensures { result ≡ list_all field_byte bytes.now }
{
    bytes.iter().all(|b| is_field_byte(*b))
}

fn is_field_byte(byte: u8) -> bool
    ensures { result ≡ field_byte byte }
{
    byte == b'\t' || !(byte < 32) && !(byte == 127)
}

fn begins_blank(bytes: &[u8]) -> bool
    ensures { result ≡ blank_first bytes.now }
{
    match bytes {
        [first, ..] => *first == b' ' || *first == b'\t',
        [] => false,
    }
}

fn ends_blank(bytes: &[u8]) -> bool
    ensures { result ≡ blank_first (reverse bytes.now) }
{
    match bytes {
        [.., last] => *last == b' ' || *last == b'\t',
        [] => false,
    }
}
