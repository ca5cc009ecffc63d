// Members by their names.
ghost use Rattle.std.specs.Prelude.{◌≡◌, true, option_map};
ghost use Rattle.std.specs.Option.{option_copied};
ghost use Rattle.arz_json.specs.Tree.{has_form};
ghost use Rattle.arz_json.specs.Look.{member_in};
ghost use Rattle.arz_json.specs.Pointer.{member_named};
ghost use Rattle.arz_rules.specs.Sites.{text_named as text_under};
ghost use Rattle.arz_rules.specs.Look.{AreOrdered};

use arz_json::{Json, Member};
use std::cmp::Ordering;

/// The value of the member with this name, where the tree is an object that has it. Since members are
/// ordered, it is found by halving them.
pub fn child<'a>(tree: &'a Json, name: &str) -> Option<&'a Json>
    requires { has_form tree.now ≡ true }
    ensures { option_copied result ≡ member_in name.now tree.now }
{
    match tree {
        Json::Object(members) => find(members.as_slice(), name),
        _ => None,
    }
}

fn find<'a>(members: &'a [Member], name: &str) -> Option<&'a Json>
    requires { AreOrdered members.now }
    ensures { option_copied result ≡ member_named members.now name.now }
{
    let (before, rest) = members.split_at(members.len() / 2);
    let (middle, after) = rest.split_first()?;
    match name.cmp(&middle.name.as_str()) {
        Ordering::Less => find(before, name),
        Ordering::Equal => Some(&middle.value),
        Ordering::Greater => find(after, name),
    }
}

/// The text of the member with this name, where the tree is an object that has it and it is a text.
pub fn text_named<'a>(tree: &'a Json, name: &str) -> Option<&'a str>
    requires { has_form tree.now ≡ true }
    ensures { option_map (λ t. t.now) result ≡ text_under name.now tree.now }
{
    child(tree, name)?.as_text()
}
