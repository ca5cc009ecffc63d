// A parameter as it is described.
ghost use Rattle.std.specs.Prelude.{◌≡◌, IfOk};
ghost use Rattle.arz_operation.specs.Parameters.{place_word, place_of, delimited_word, style_word, default_style, is_form, flag_in, style_in, style_of, written, explode_of, described_at, described};

use crate::types::Described;
use arz_json::{Json, Location, Style, Text, text_at};
use std::alloc::{AllocError, Global};

fn place_named(word: &str) -> Option<Location>
    ensures { result ≡ place_word word.now }
{
    match word {
        "path" => Some(Location::Path),
        "query" => Some(Location::Query),
        "header" => Some(Location::Header),
        "cookie" => Some(Location::Cookie),
        _ => None,
    }
}

fn delimited_named(word: &str) -> Option<Style>
    ensures { result ≡ delimited_word word.now }
{
    match word {
        "spaceDelimited" => Some(Style::SpaceDelimited),
        "pipeDelimited" => Some(Style::PipeDelimited),
        "deepObject" => Some(Style::DeepObject),
        _ => None,
    }
}

fn style_named(word: &str) -> Option<Style>
    ensures { result ≡ style_word word.now }
{
    match word {
        "matrix" => Some(Style::Matrix),
        "label" => Some(Style::Label),
        "simple" => Some(Style::Simple),
        "form" => Some(Style::Form),
        _ => delimited_named(word),
    }
}

fn usual_style(place: Location) -> Style
    ensures { result ≡ default_style place }
{
    match place {
        Location::Path | Location::Header => Style::Simple,
        Location::Query | Location::Cookie => Style::Form,
    }
}

fn is_form_style(style: Style) -> bool
    ensures { result ≡ is_form style }
{
    matches!(style, Style::Form)
}

fn as_flag(tree: &Json) -> Option<bool>
    ensures { result ≡ flag_in tree.now }
{
    match tree {
        Json::Flag(flag) => Some(*flag),
        _ => None,
    }
}

fn as_style(tree: &Json) -> Option<Style>
    ensures { result ≡ style_in tree.now }
{
    style_named(tree.as_text()?)
}

fn written_style(place: Location, tree: &Json) -> Style
    ensures { result ≡ style_of place tree.now }
{
    if tree.get("content").is_some() {
        return usual_style(place);
    }
    match tree.get("style") {
        Some(style) => as_style(style).unwrap_or(usual_style(place)),
        None => usual_style(place),
    }
}

fn written_explode(style: Style, tree: &Json) -> bool
    ensures { result ≡ explode_of style tree.now }
{
    if tree.get("content").is_some() {
        return is_form_style(style);
    }
    match tree.get("explode") {
        Some(explode) => as_flag(explode).unwrap_or(is_form_style(style)),
        None => is_form_style(style),
    }
}

fn place_in(tree: &Json) -> Option<Location>
    ensures { result ≡ place_of tree.now }
{
    place_named(tree.get("in")?.as_text()?)
}

fn read_at(alloc: Global, tree: &Json, place: Location) -> Result<Described, AllocError>
    ensures { IfOk result (λ d. d ≡ described_at tree.now place) }
{
    let name = Text::from_str(alloc, text_at(tree, "name"))?;
    let style = written_style(place, tree);
    let explode = written_explode(style, tree);
    Ok(Described {
        name,
        place,
        style,
        explode,
    })
}

/// The parameter that an object describes (OpenAPI 3.1.0, section 4.8.12), with the defaults of its place; `None`
/// where its `in` is none of the four places.
pub fn read_parameter(alloc: Global, tree: &Json) -> Result<Option<Described>, AllocError>
    ensures { IfOk result (λ d. d ≡ described tree.now) }
{
    match place_in(tree) {
        Some(place) => Ok(Some(read_at(alloc, tree, place)?)),
        None => Ok(None),
    }
}
