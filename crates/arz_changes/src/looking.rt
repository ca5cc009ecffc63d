// What stands at a place.
ghost use Rattle.std.specs.Prelude.{◌≡◌, true, option_map, slice_get};
ghost use Rattle.std.specs.Option.{option_copied};
ghost use Rattle.arz_json.specs.Put.{children};
ghost use Rattle.arz_json.specs.Tree.{has_form};
ghost use Rattle.arz_changes.specs.Actions.{standing as stands, is_container as is_a_container, kept_rule, removal_rule};
ghost use Rattle.arz_changes.specs.Groups.{ways_seen};

use crate::children::child_index;
use crate::groups::Way;
use arz_json::{Json, Member, Token};

/// What stands at a place, where anything does. It takes no memory, and at each object on the way the
/// logarithm of the number of its members in time.
pub fn standing<'a>(tree: &'a Json, place: &[Token]) -> Option<&'a Json>
    requires { has_form tree.now ≡ true }
    ensures { option_copied result ≡ stands place.now tree.now }
{
    let Some((token, rest)) = place.split_first() else {
        return Some(tree);
    };
    let at = child_index(tree, token)?;
    standing(child(tree, at)?, rest)
}

// The child with a number.
fn child(tree: &Json, at: usize) -> Option<&Json>
    ensures { option_copied result ≡ slice_get (children tree.now) at }
{
    match tree {
        Json::List(items) => items.get(at),
        Json::Object(members) => value_of(members.get(at)),
        _ => None,
    }
}

fn value_of(member: Option<&Member>) -> Option<&Json>
    ensures { option_copied result ≡ option_map (λ m. m.value) (option_copied member.entry) }
{
    match member {
        Some(member) => Some(&member.value),
        None => None,
    }
}

/// Whether an object or a list stands there.
pub fn is_container(value: Option<&Json>) -> bool
    ensures { result ≡ is_a_container (option_copied value.entry) }
{
    match value {
        Some(Json::List(_) | Json::Object(_)) => true,
        _ => false,
    }
}

/// The rule that a removal fails at the first of its places at which one fails: 25 where no object or list
/// stands, 26 at the root.
pub fn removal_rule_of(tree: &Json, ways: &[Way]) -> Option<u8>
    requires { has_form tree.now ≡ true }
    ensures { result ≡ removal_rule (ways_seen ways.now) tree.now }
{
    for way in ways {
        if let Some(rule) = kept_rule_of(tree, way) {
            return Some(rule);
        }
    }
    None
}

fn kept_rule_of(tree: &Json, way: &Way) -> Option<u8>
    requires { has_form tree.now ≡ true }
    ensures { result ≡ kept_rule way.now.tokens.now (is_a_container (stands way.now.tokens.now tree.now)) }
{
    if !is_container(standing(tree, way.tokens)) {
        return Some(25);
    }
    if way.tokens.is_empty() {
        Some(26)
    } else {
        None
    }
}
