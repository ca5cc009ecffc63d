// What a step gives to its request.
ghost use Rattle.std.specs.Prelude.{◌≡◌, IfOk, All, map};
ghost use Rattle.arz_json.specs.Tree.{IsWellFormed};
ghost use Rattle.arz_components.specs.Indexes.{finds};
ghost use Rattle.arz_description.specs.Requests.{place_by, place_of, value_in, value_by, given_by, given_of, replacement_of, body_in, body_of, AreWellFormed};

use crate::actions::meant;
use crate::lists::{read_text, read_text_if};
use arz_components::{Components, Part, text_of};
use arz_expr::{Body, Given, Replacement, Template};
use arz_json::{Json, Location, Many, items_at};
use std::alloc::{AllocError, Global};

fn place_of_word(word: &str) -> Location
    ensures { result ≡ place_by word.now }
{
    match word {
        "path" => Location::Path,
        "header" => Location::Header,
        "cookie" => Location::Cookie,
        _ => Location::Query,
    }
}

fn read_place(tree: &Json) -> Location
    ensures { result ≡ place_of tree.now }
{
    match text_of(tree, "in") {
        Some(word) => place_of_word(word),
        None => Location::Query,
    }
}

/// The value that a tree gives, null where it gives none.
fn read_value(alloc: Global, tree: &Json) -> Result<Template, AllocError>
    requires { IsWellFormed tree.now }
    ensures { IfOk result (λ t. t ≡ value_in tree.now) }
{
    match tree.get("value") {
        Some(value) => Template::read(alloc, value),
        None => Template::read(alloc, &Json::Null),
    }
}

fn read_value_by(alloc: Global, component: &Json, item: &Json) -> Result<Template, AllocError>
    requires component { IsWellFormed component.now }
    requires item { IsWellFormed item.now }
    ensures { IfOk result (λ t. t ≡ value_by component.now item.now) }
{
    match item.get("value") {
        Some(value) => Template::read(alloc, value),
        None => read_value(alloc, component),
    }
}

fn read_given_by(alloc: Global, component: &Json, item: &Json) -> Result<Given, AllocError>
    requires component { IsWellFormed component.now }
    requires item { IsWellFormed item.now }
    ensures { IfOk result (λ g. g ≡ given_by component.now item.now) }
{
    let name = read_text(alloc, component, "name")?;
    let place = read_place(component);
    let value = read_value_by(alloc, component, item)?;
    Ok(Given { name, place, value })
}

fn read_given(alloc: Global, components: &Components, item: &Json) -> Result<Given, AllocError>
    requires components { AreWellFormed (finds components.now) }
    requires item { IsWellFormed item.now }
    ensures { IfOk result (λ g. g ≡ given_of (finds components.now) item.now) }
{
    read_given_by(alloc, meant(components, Part::Parameters, item), item)
}

/// The parameters of a list, whose items may refer to components.
pub fn read_givens(
    alloc: Global,
    components: &Components,
    items: &[Json],
) -> Result<Many<Given>, AllocError>
    requires components { AreWellFormed (finds components.now) }
    requires items { All IsWellFormed items.now }
    ensures { IfOk result (λ gs. gs ≡ map (given_of (finds components.now)) items.now) }
{
    let mut givens = Vec::with_capacity(alloc, items.len())?;
    for item in items {
        givens.push(read_given(alloc, components, item)?)?;
    }
    Ok(Many::from_std(givens))
}

fn read_replacement(alloc: Global, tree: &Json) -> Result<Replacement, AllocError>
    requires { IsWellFormed tree.now }
    ensures { IfOk result (λ r. r ≡ replacement_of tree.now) }
{
    let target = read_text(alloc, tree, "target")?;
    let value = read_value(alloc, tree)?;
    Ok(Replacement { target, value })
}

fn read_replacements(alloc: Global, items: &[Json]) -> Result<Many<Replacement>, AllocError>
    requires { All IsWellFormed items.now }
    ensures { IfOk result (λ rs. rs ≡ map replacement_of items.now) }
{
    let mut replacements = Vec::with_capacity(alloc, items.len())?;
    for item in items {
        replacements.push(read_replacement(alloc, item)?)?;
    }
    Ok(Many::from_std(replacements))
}

fn read_body_in(alloc: Global, tree: &Json) -> Result<Option<Body>, AllocError>
    requires { IsWellFormed tree.now }
    ensures { IfOk result (λ b. b ≡ body_in tree.now) }
{
    match tree.get("payload") {
        Some(payload) => {
            let kind = read_text_if(alloc, tree, "contentType")?;
            let payload = Template::read(alloc, payload)?;
            let replacements = read_replacements(alloc, items_at(tree, "replacements"))?;
            Ok(Some(Body {
                kind,
                payload,
                replacements,
            }))
        }
        None => Ok(None),
    }
}

/// The body that a step gives.
pub fn read_body(alloc: Global, step: &Json) -> Result<Option<Body>, AllocError>
    requires { IsWellFormed step.now }
    ensures { IfOk result (λ b. b ≡ body_of step.now) }
{
    match step.get("requestBody") {
        Some(body) => read_body_in(alloc, body),
        None => Ok(None),
    }
}
