// What stands between the separators of a style.
ghost use Rattle.std.specs.Prelude.{◌≡◌, ◌++◌, ◌∷◌, [], IfOk, map, codes};
ghost use Rattle.std.specs.List.{flat_map};
ghost use Rattle.arz_style.specs.Styles.{shows_name as name_shown, leaves_out as sign_left_out, inner as between_parts, valued as with_value, labelled, pair_text as text_of_pair, labels, pair_labels, parts_of, is_deep as deep};
ghost use Rattle.arz_json.specs.Texts.{joined as joined_by};

use crate::texts::Pair;
use crate::writing::joined;
use arz_json::{Style, Text};
use std::alloc::{AllocError, Global};

fn shows_name(style: Style) -> bool
    ensures { result ≡ name_shown style }
{
    match style {
        Style::Label | Style::Simple => false,
        _ => true,
    }
}

fn leaves_out(style: Style, text: &str) -> bool
    ensures { result ≡ sign_left_out style text.now }
{
    match style {
        Style::Matrix => text.is_empty(),
        _ => false,
    }
}

fn inner(style: Style) -> &'static str
    ensures { result.now ≡ between_parts style }
{
    match style {
        Style::SpaceDelimited => "%20",
        Style::PipeDelimited => "%7C",
        _ => ",",
    }
}

// NAME=TEXT
fn valued(alloc: Global, style: Style, name: &str, text: &str) -> Result<Text, AllocError>
    ensures { IfOk result (λ t. t ≡ with_value style name.now text.now) }
{
    let mut out = String::from_str(alloc, name)?;
    if !leaves_out(style, text) {
        out.push_str("=")?;
        out.push_str(text)?;
    }
    Ok(Text::from_std(out))
}

/// A text behind the parameter's name, where the style shows it.
pub(crate) fn label(alloc: Global, style: Style, name: &str, text: &str) -> Result<Text, AllocError>
    ensures { IfOk result (λ t. t ≡ labelled style name.now text.now) }
{
    if shows_name(style) {
        valued(alloc, style, name, text)
    } else {
        Text::from_str(alloc, text)
    }
}

fn label_each(
    alloc: Global,
    style: Style,
    name: &str,
    texts: &[Text],
) -> Result<Vec<Text>, AllocError>
    ensures { IfOk result (λ v. v.items ≡ map (labelled style name.now) texts.now) }
{
    let mut out = Vec::new(alloc);
    for text in texts {
        out.push(label(alloc, style, name, text.as_str())?)?;
    }
    Ok(out)
}

// The texts behind one name.
fn label_together(
    alloc: Global,
    style: Style,
    name: &str,
    texts: &[Text],
) -> Result<Vec<Text>, AllocError>
    ensures { IfOk result (λ v. v.items ≡ labelled style name.now (joined_by (between_parts style) texts.now) ∷ []) }
{
    let text = joined(alloc, inner(style), texts)?;
    let mut out = Vec::new(alloc);
    out.push(label(alloc, style, name, text.as_str())?)?;
    Ok(out)
}

/// The labels of the texts of a list: one for each, or one for all.
pub(crate) fn list_labels(
    alloc: Global,
    style: Style,
    explode: bool,
    name: &str,
    texts: &[Text],
) -> Result<Vec<Text>, AllocError>
    ensures { IfOk result (λ v. v.items ≡ labels style explode name.now texts.now) }
{
    if texts.is_empty() {
        return Ok(Vec::new(alloc));
    }
    if explode {
        label_each(alloc, style, name, texts)
    } else {
        label_together(alloc, style, name, texts)
    }
}

// NAME%5BMEMBER%5D
fn deep_name(alloc: Global, name: &str, member: &str) -> Result<Text, AllocError>
    ensures { IfOk result (λ t. t ≡ name.now ++ codes "%5B" ++ member.now ++ codes "%5D") }
{
    let mut out = String::from_str(alloc, name)?;
    out.push_str("%5B")?;
    out.push_str(member)?;
    out.push_str("%5D")?;
    Ok(Text::from_std(out))
}

fn pair_text(alloc: Global, style: Style, name: &str, pair: &Pair) -> Result<Text, AllocError>
    ensures { IfOk result (λ t. t ≡ text_of_pair style name.now pair.now) }
{
    match style {
        Style::DeepObject => {
            let deep = deep_name(alloc, name, pair.name.as_str())?;
            valued(alloc, style, deep.as_str(), pair.text.as_str())
        }
        _ => valued(alloc, style, pair.name.as_str(), pair.text.as_str()),
    }
}

fn label_pairs(
    alloc: Global,
    style: Style,
    name: &str,
    pairs: &[Pair],
) -> Result<Vec<Text>, AllocError>
    ensures { IfOk result (λ v. v.items ≡ map (text_of_pair style name.now) pairs.now) }
{
    let mut out = Vec::new(alloc);
    for pair in pairs {
        out.push(pair_text(alloc, style, name, pair)?)?;
    }
    Ok(out)
}

// The names and the texts one after the other.
fn parts(alloc: Global, pairs: &[Pair]) -> Result<Vec<Text>, AllocError>
    ensures { IfOk result (λ v. v.items ≡ flat_map parts_of pairs.now) }
{
    let mut out = Vec::new(alloc);
    for pair in pairs {
        out.push(pair.name.copy(alloc)?)?;
        out.push(pair.text.copy(alloc)?)?;
    }
    Ok(out)
}

/// The labels of the members of an object.
pub(crate) fn object_labels(
    alloc: Global,
    style: Style,
    explode: bool,
    name: &str,
    pairs: &[Pair],
) -> Result<Vec<Text>, AllocError>
    ensures { IfOk result (λ v. v.items ≡ pair_labels style explode name.now pairs.now) }
{
    if explode || is_deep(style) {
        label_pairs(alloc, style, name, pairs)
    } else {
        list_labels(alloc, style, false, name, parts(alloc, pairs)?.as_slice())
    }
}

fn is_deep(style: Style) -> bool
    ensures { result ≡ deep style }
{
    match style {
        Style::DeepObject => true,
        _ => false,
    }
}
