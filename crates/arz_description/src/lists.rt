// Texts and lists of texts.
ghost use Rattle.std.specs.Prelude.{◌≡◌, IfOk, option_map, map};
ghost use Rattle.std.specs.Option.{option_copied};
ghost use Rattle.arz_json.specs.Look.{text_at as text_under};
ghost use Rattle.arz_components.specs.Texts.{text_named};
ghost use Rattle.arz_description.specs.Parts.{text_or as text_or_other, text_in_item};

use arz_components::text_of;
use arz_json::{Json, Many, Text, text_at};
use std::alloc::{AllocError, Global};

/// The text of a member, or the empty text.
pub fn read_text(alloc: Global, tree: &Json, name: &str) -> Result<Text, AllocError>
    ensures { IfOk result (λ t. t ≡ text_under name.now tree.now) }
{
    Text::from_str(alloc, text_at(tree, name))
}

/// The text of a member, or another.
pub fn read_text_or(alloc: Global, tree: &Json, name: &str, other: &str) -> Result<Text, AllocError>
    ensures { IfOk result (λ t. t ≡ text_or_other other.now name.now tree.now) }
{
    Text::from_str(alloc, text_of(tree, name).unwrap_or(other))
}

/// The text of a member, where it is there.
pub fn read_text_if(alloc: Global, tree: &Json, name: &str) -> Result<Option<Text>, AllocError>
    ensures { IfOk result (λ t. t ≡ text_named name.now tree.now) }
{
    match text_of(tree, name) {
        Some(text) => Ok(Some(Text::from_str(alloc, text)?)),
        None => Ok(None),
    }
}

fn read_item(alloc: Global, item: &Json) -> Result<Text, AllocError>
    ensures { IfOk result (λ t. t ≡ text_in_item item.now) }
{
    Text::from_str(alloc, item.as_text().unwrap_or(""))
}

/// The texts of a list.
pub fn read_texts(alloc: Global, items: &[Json]) -> Result<Many<Text>, AllocError>
    ensures { IfOk result (λ ts. ts ≡ map text_in_item items.now) }
{
    let mut texts = Vec::with_capacity(alloc, items.len())?;
    for item in items {
        texts.push(read_item(alloc, item)?)?;
    }
    Ok(Many::from_std(texts))
}
