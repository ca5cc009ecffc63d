// The names of parameters in path.
ghost use Rattle.std.specs.Prelude.{◌≡◌, ◌||◌, IfOk, OnOk, List, ℕ, map, option_map};
ghost use Rattle.std.specs.List.{list_all, list_any};
ghost use Rattle.arz_json.specs.declared.tree.Location.TheVariants.{Path};
ghost use Rattle.arz_rules.specs.Sets.{has, is_text};
ghost use Rattle.arz_components.specs.Indexes.{finds};
ghost use Rattle.arz_components.specs.declared.components.Part.TheVariants.{Parameters};
ghost use Rattle.arz_operation.specs.Named.{is_same};
ghost use Rattle.arz_description.specs.Parts.{meant};
ghost use Rattle.arz_description.specs.Requests.{place_by, place_of, given_of};
ghost use Rattle.arz_sources.specs.Rules.{fills, gives};

use arz_components::{Components, Part, actual, text_of};
use arz_json::{Json, items_at, text_at};
use arz_rules::TextSet;
use std::alloc::{AllocError, Global};

fn is_path_word(word: &str) -> bool
    ensures { result ≡ is_same (place_by word.now) Path }
{
    word == "path"
}

fn is_in_path(parameter: &Json) -> bool
    ensures { result ≡ is_same (place_of parameter.now) Path }
{
    match text_of(parameter, "in") {
        Some(word) => is_path_word(word),
        None => false,
    }
}

/// The component to which a parameter refers, or the parameter itself where it refers to none.
fn parameter<'a: 'i, 'i>(components: &Components<'a>, item: &'i Json) -> &'i Json
    ensures { result.now ≡ meant (finds components.now) Parameters item.now }
{
    actual(components, Part::Parameters, item).unwrap_or(item)
}

/// The name of a parameter in path.
fn path_name<'a: 'i, 'i>(components: &Components<'a>, item: &'i Json) -> Option<&'i str>
    ensures { (q : List ℕ) → is_text (option_map (λ t. t.now) result) q ≡ fills q (given_of (finds components.now) item.now) }
{
    let parameter = parameter(components, item);
    if !is_in_path(parameter) {
        return None;
    }
    Some(text_at(parameter, "name"))
}

fn put_name<'i>(set: &mut TextSet<'i>, name: Option<&'i str>) -> Result<(), AllocError>
    ensures { OnOk result ((q : List ℕ) → has set.new q ≡ is_text (option_map (λ t. t.now) name.entry) q || has set.old q) }
{
    if let Some(name) = name {
        let _was = set.put(name)?;
    }
    Ok(())
}

fn put_names<'a: 'i, 'i>(
    set: &mut TextSet<'i>,
    components: &Components<'a>,
    items: &'i [Json],
) -> Result<(), AllocError>
    ensures { OnOk result ((q : List ℕ) → has set.new q ≡ list_any (λ item. fills q (given_of (finds components.now) item)) items.now || has set.old q) }
{
    for item in items {
        put_name(set, path_name(components, item))?;
    }
    Ok(())
}

/// The names of the parameters in path that an object lists.
pub(crate) fn path_names<'a: 'i, 'i>(
    alloc: Global,
    components: &Components<'a>,
    tree: &'i Json,
) -> Result<TextSet<'i>, AllocError>
    ensures { IfOk result (λ set. (q : List ℕ) → has set q ≡ gives (finds components.now) tree.now q) }
{
    let mut set = TextSet::new(alloc);
    put_names(&mut set, components, items_at(tree, "parameters"))?;
    Ok(set)
}

fn is_given(own: &TextSet, others: &TextSet, name: &str) -> bool
    ensures { result ≡ (has own.now name.now || has others.now name.now) }
{
    own.has(name) || others.has(name)
}

/// Whether each of the names is in one of two sets.
pub(crate) fn are_given(own: &TextSet, others: &TextSet, names: &[&str]) -> bool
    ensures { result ≡ list_all (λ q. has own.now q || has others.now q) (map (λ t. t.now) names.now) }
{
    for name in names {
        if !is_given(own, others, name) {
            return false;
        }
    }
    true
}
