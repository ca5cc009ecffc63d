// A value in a style.
ghost use Rattle.std.specs.Prelude.{◌≡◌, IfOk, IsUtf8, not};
ghost use Rattle.std.specs.List.{list_any};
ghost use Rattle.arz_json.specs.Answer.{Gives};
ghost use Rattle.arz_style.specs.Texts.{told, is_null as null, text_of};
ghost use Rattle.arz_style.specs.Styles.{lead as leading, between as between_labels, laid, takes_text as text_taken, listed, objected, alone, labels_for, refuses_list, expanded};

use crate::escapes::spell;
use crate::fault::StyleFault;
use crate::labels::{label, list_labels, object_labels};
use crate::texts::{item_texts, member_pairs, scalar_text};
use crate::writing::push_joined;
use arz_json::{Bytes, Json, Member, Style, Text};
use std::alloc::{AllocError, Global};

fn lead(style: Style) -> &'static str
    ensures { result.now ≡ leading style }
{
    match style {
        Style::Matrix => ";",
        Style::Label => ".",
        _ => "",
    }
}

fn between(style: Style) -> &'static str
    ensures { result.now ≡ between_labels style }
{
    match style {
        Style::Matrix => ";",
        Style::Label => ".",
        Style::Simple => ",",
        _ => "&",
    }
}

fn lay(alloc: Global, style: Style, labels: &[Text]) -> Result<Bytes, AllocError>
    ensures bytes { IfOk result (λ b. b ≡ laid style labels.now) }
    ensures text { IfOk result IsUtf8 }
{
    let mut out = String::new(alloc);
    if !labels.is_empty() {
        out.push_str(lead(style))?;
        push_joined(&mut out, between(style), labels)?;
    }
    Ok(Bytes::from_std(out.into_bytes()))
}

fn takes_text(style: Style) -> bool
    ensures { result ≡ text_taken style }
{
    match style {
        Style::SpaceDelimited | Style::PipeDelimited | Style::DeepObject => false,
        _ => true,
    }
}

fn is_null(value: &Json) -> bool
    ensures { result ≡ null value.now }
{
    match value {
        Json::Null => true,
        _ => false,
    }
}

fn has_more(items: &[Json]) -> bool
    ensures { result ≡ list_any (λ j. not (null j)) items.now }
{
    items.iter().any(|item| !is_null(item))
}

fn refuses(style: Style, items: &[Json]) -> bool
    ensures { result ≡ refuses_list style items.now }
{
    match style {
        Style::DeepObject => has_more(items),
        _ => false,
    }
}

fn labels_of_list(
    alloc: Global,
    style: Style,
    explode: bool,
    escape: bool,
    name: &str,
    items: &[Json],
) -> Result<Vec<Text>, StyleFault>
    ensures { Gives (λ v. v.items) told result (listed style explode escape name.now items.now) }
{
    if refuses(style, items) {
        return Err(StyleFault::NotSerializable);
    }
    let texts = item_texts(alloc, escape, items)?;
    Ok(list_labels(alloc, style, explode, name, texts.as_slice())?)
}

fn labels_of_object(
    alloc: Global,
    style: Style,
    explode: bool,
    escape: bool,
    name: &str,
    members: &[Member],
) -> Result<Vec<Text>, StyleFault>
    ensures { Gives (λ v. v.items) told result (objected style explode escape name.now members.now) }
{
    let pairs = member_pairs(alloc, escape, members)?;
    Ok(object_labels(alloc, style, explode, name, pairs.as_slice())?)
}

fn labels_of_text(
    alloc: Global,
    style: Style,
    name: &str,
    text: Option<Text>,
) -> Result<Vec<Text>, StyleFault>
    ensures { Gives (λ v. v.items) told result (alone style name.now text) }
{
    let mut labels = Vec::new(alloc);
    let Some(text) = text else {
        return Ok(labels);
    };
    if !takes_text(style) {
        return Err(StyleFault::NotSerializable);
    }
    labels.push(label(alloc, style, name, text.as_str())?)?;
    Ok(labels)
}

fn labels(
    alloc: Global,
    style: Style,
    explode: bool,
    escape: bool,
    name: &str,
    value: &Json,
) -> Result<Vec<Text>, StyleFault>
    ensures { Gives (λ v. v.items) told result (labels_for style explode escape name.now value.now) }
{
    match value {
        Json::List(items) => {
            labels_of_list(alloc, style, explode, escape, name, items.as_slice())
        }
        Json::Object(members) => {
            labels_of_object(alloc, style, explode, escape, name, members.as_slice())
        }
        scalar => {
            let text = scalar_text(alloc, escape, scalar)?;
            labels_of_text(alloc, style, name, text)
        }
    }
}

/// A parameter's value in a style (OpenAPI 3.1.1, section 4.8.12.6; RFC 6570, section 3.2). With `explode`
/// each item of a list and each member of an object stands by itself. With `escape` each byte of names and
/// values that isn't unreserved (RFC 3986, section 2.3) is percent-encoded; without it they stand as they
/// are. Nulls are left out; a null alone, and a list or an object with nothing left in it, gives no bytes. The bytes
/// are UTF-8.
///
/// Errors: `NotSerializable` where the style has no text for such a value, as the table says, or where a
/// list or an object stands inside the value; `FractionUsed` where a number without its value would be
/// written; of several items or members the first decides.
pub fn expand(
    alloc: Global,
    style: Style,
    explode: bool,
    escape: bool,
    name: &str,
    value: &Json,
) -> Result<Bytes, StyleFault>
    ensures expanded { Gives (λ b. b) told result (expanded style explode escape name.now value.now) }
    ensures text { IfOk result IsUtf8 }
{
    let name = spell(alloc, escape, name)?;
    let labels = labels(alloc, style, explode, escape, name.as_str(), value)?;
    Ok(lay(alloc, style, labels.as_slice())?)
}
