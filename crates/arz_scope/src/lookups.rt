// What the trees of a run hold by name.
ghost use Rattle.std.specs.Prelude.{◌≡◌, IfSome, All, codes, find, option_and_then};
ghost use Rattle.std.specs.Option.{option_copied};
ghost use Rattle.arz_json.specs.Look.{member_in};
ghost use Rattle.arz_json.specs.Pointer.{member_named};
ghost use Rattle.std.specs.Str.{bytes_eq};
ghost use Rattle.arz_json.specs.Look.{text_at as text_under};
ghost use Rattle.arz_scope.specs.Scopes.{source_named as source_with, or_openapi};
ghost use Rattle.arz_scope.specs.Shallow.{IsShallow, AreShallow};
ghost use Rattle.arz_scope.specs.Sources.{openapi as openapi_type};

use arz_json::{Json, Member, items_at, text_at, value_named};

/// The value of the member with this name.
pub fn member_value<'a>(members: &'a [Member], name: &str) -> Option<&'a Json>
    ensures value { option_copied result ≡ member_named members.now name.now }
    ensures shallow { AreShallow members.now → IfSome result (λ value. IsShallow value.now) }
{
    value_named(members, name)
}

// The source description with this name.
fn source_named<'a>(description: &'a Json, name: &str) -> Option<&'a Json>
    ensures value { option_copied result ≡ source_with name.now description.now }
    ensures shallow { IsShallow description.now → IfSome result (λ source. IsShallow source.now) }
{
    among_sources(items_at(description, "sourceDescriptions"), name)
}

fn among_sources<'a>(sources: &'a [Json], name: &str) -> Option<&'a Json>
    ensures value { option_copied result ≡ find (λ s. bytes_eq (text_under (codes "name") s) name.now) sources.now }
    ensures shallow { All IsShallow sources.now → IfSome result (λ source. IsShallow source.now) }
{
    sources
        .iter()
        .find(|source| text_at(source, "name") == name)
}

/// A member of the source description with this name.
pub fn source_member<'a>(description: &'a Json, source: &str, name: &str) -> Option<&'a Json>
    ensures value { option_copied result ≡ option_and_then (member_in name.now) (source_with source.now description.now) }
    ensures shallow { IsShallow description.now → IfSome result (λ value. IsShallow value.now) }
{
    source_named(description, source)?.get(name)
}

/// The type of the source description with this name, and `openapi` where it names none.
pub fn source_kind<'a>(description: &'a Json, source: &str, openapi: &'a Json) -> Option<&'a Json>
    requires { openapi.now ≡ openapi_type }
    ensures value { option_copied result ≡ option_and_then (λ d. or_openapi (member_in (codes "type") d)) (source_with source.now description.now) }
    ensures shallow { IsShallow description.now → IfSome result (λ value. IsShallow value.now) }
{
    let source = source_named(description, source)?;
    match source.get("type") {
        Some(kind) => Some(kind),
        None => Some(openapi),
    }
}
