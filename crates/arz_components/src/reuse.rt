// Reusable objects, which stand for components.
ghost use Rattle.std.specs.Prelude.{◌≡◌, option_map};
ghost use Rattle.arz_components.specs.Described.{is_reuse as reuse, reused_name as name_reused, actual as stands};
ghost use Rattle.arz_components.specs.Indexes.{finds};

use crate::components::{Components, Part};
use crate::texts::{referred, text_of};
use arz_json::Json;

/// Whether an item is a reusable object (Arazzo 1.0.1, section 4.6.10): it has a `reference`.
pub fn is_reuse(item: &Json) -> bool
    ensures { result ≡ reuse item.now }
{
    item.get("reference").is_some()
}

/// The name to which a reusable object of this part refers.
pub fn reused_name<'a>(part: Part, item: &'a Json) -> Option<&'a str>
    ensures { option_map (λ t. t.now) result ≡ name_reused part item.now }
{
    referred(part.name(), text_of(item, "reference")?)
}

/// The item itself, or the component that stands in its place.
pub fn actual<'a: 'i, 'i>(
    components: &Components<'a>,
    part: Part,
    item: &'i Json,
) -> Option<&'i Json>
    ensures { option_map (λ j. j.now) result ≡ stands (finds components.now) part item.now }
{
    if !is_reuse(item) {
        return Some(item);
    }
    components.find(part, reused_name(part, item)?)
}
