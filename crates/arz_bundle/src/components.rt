// The schemas of inputs among the components (Arazzo 1.0.1, 4.6.9).
ghost use Rattle.std.specs.Prelude.{◌≡◌, true, IfSome, codes, option_and_then};
ghost use Rattle.std.specs.Option.{option_copied};
ghost use Rattle.arz_json.specs.Look.{member_in};
ghost use Rattle.arz_json.specs.Tree.{has_form};
ghost use Rattle.arz_expr.specs.Reading.{after};
ghost use Rattle.arz_bundle.specs.Naming.{schema_with, schema_at as schema_named, schema_of as schema_for};

use arz_json::Json;
use arz_rules::child;

/// The value of the member with this name, which is in form as the tree is.
pub(crate) fn formed_child<'a>(tree: &'a Json, name: &str) -> Option<&'a Json>
    requires { has_form tree.now ≡ true }
    ensures named { option_copied result ≡ member_in name.now tree.now }
    ensures formed { IfSome result (λ value. has_form value.now ≡ true) }
{
    child(tree, name)
}

// The component with this name under a part of the components.
fn component<'a>(description: &'a Json, part: &str, name: &str) -> Option<&'a Json>
    requires { has_form description.now ≡ true }
    ensures named { option_copied result ≡ option_and_then (member_in name.now) (option_and_then (member_in part.now) (member_in (codes "components") description.now)) }
    ensures formed { IfSome result (λ value. has_form value.now ≡ true) }
{
    let components = formed_child(description, "components")?;
    let members = formed_child(components, part)?;
    formed_child(members, name)
}

/// A schema itself, or the component that its `$ref` names.
pub(crate) fn schema_of<'a>(description: &'a Json, schema: &'a Json) -> Option<&'a Json>
    requires description { has_form description.now ≡ true }
    requires schema { has_form schema.now ≡ true }
    ensures meant { option_copied result ≡ schema_for description.now schema.now }
    ensures formed { IfSome result (λ value. has_form value.now ≡ true) }
{
    match child(schema, "$ref") {
        Some(Json::Text(reference)) => schema_at(description, reference.as_str()),
        _ => Some(schema),
    }
}

fn schema_at<'a>(description: &'a Json, reference: &str) -> Option<&'a Json>
    requires { has_form description.now ≡ true }
    ensures named { option_copied result ≡ schema_named description.now reference.now }
    ensures formed { IfSome result (λ value. has_form value.now ≡ true) }
{
    match schema_name(reference) {
        Some(name) => schema_under(description, name),
        None => None,
    }
}

fn schema_name(reference: &str) -> Option<&str>
    ensures { option_copied result ≡ after (codes "#/components/inputs/") reference.now }
{
    reference.strip_prefix("#/components/inputs/")
}

fn schema_under<'a>(description: &'a Json, name: &str) -> Option<&'a Json>
    requires { has_form description.now ≡ true }
    ensures named { option_copied result ≡ schema_with description.now name.now }
    ensures formed { IfSome result (λ value. has_form value.now ≡ true) }
{
    component(description, "inputs", name)
}
