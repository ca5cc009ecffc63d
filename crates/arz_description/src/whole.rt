// The whole description.
ghost use Rattle.std.specs.Prelude.{◌≡◌, IfOk, map};
ghost use Rattle.arz_json.specs.Tree.{IsWellFormed};
ghost use Rattle.arz_components.specs.Indexes.{finds};
ghost use Rattle.arz_description.specs.Parts.{source_of};
ghost use Rattle.arz_description.specs.Requests.{AreWellFormed};
ghost use Rattle.arz_description.specs.Described.{description_with, description_of};

use crate::lists::{read_text, read_text_or};
use crate::parts::{Description, Source};
use crate::steps::read_workflows;
use arz_components::Components;
use arz_json::{Json, Many, items_at};
use std::alloc::{AllocError, Global};

fn read_source(alloc: Global, tree: &Json) -> Result<Source, AllocError>
    ensures { IfOk result (λ s. s ≡ source_of tree.now) }
{
    let name = read_text(alloc, tree, "name")?;
    let url = read_text(alloc, tree, "url")?;
    let kind = read_text_or(alloc, tree, "type", "openapi")?;
    Ok(Source { name, url, kind })
}

fn read_sources(alloc: Global, items: &[Json]) -> Result<Many<Source>, AllocError>
    ensures { IfOk result (λ ss. ss ≡ map source_of items.now) }
{
    let mut sources = Vec::with_capacity(alloc, items.len())?;
    for item in items {
        sources.push(read_source(alloc, item)?)?;
    }
    Ok(Many::from_std(sources))
}

fn described_with(
    alloc: Global,
    components: &Components,
    root: &Json,
) -> Result<Description, AllocError>
    requires components { AreWellFormed (finds components.now) }
    requires root { IsWellFormed root.now }
    ensures { IfOk result (λ d. d ≡ description_with (finds components.now) root.now) }
{
    let sources = read_sources(alloc, items_at(root, "sourceDescriptions"))?;
    let items = items_at(root, "workflows");
    let workflows = read_workflows(alloc, components, items)?;
    Ok(Description { sources, workflows })
}

/// The description that a tree is (Arazzo 1.0.1, section 4.6.1), with components in the place of the reusable objects
/// that refer to them.
pub fn described(alloc: Global, root: &Json) -> Result<Description, AllocError>
    requires { IsWellFormed root.now }
    ensures { IfOk result (λ d. d ≡ description_of root.now) }
{
    let components = Components::of(alloc, root)?;
    let description = described_with(alloc, &components, root)?;
    Ok(description)
}
