// The children of a value by their numbers.
ghost use Rattle.std.specs.Prelude.{◌≡◌, map, nat_lt, if◌then◌else◌, true, Some, None};
ghost use Rattle.arz_json.specs.Put.{place_of};
ghost use Rattle.arz_json.specs.Tree.{has_form, are_ordered};
ghost use Rattle.arz_changes.specs.Children.{child_of};

use arz_json::{Json, Member, Token};

/// The number of the child that a token names, where there is one. It takes no memory, and the logarithm of
/// the number of members in time.
pub fn child_index(tree: &Json, token: &Token) -> Option<usize>
    requires { has_form tree.now ≡ true }
    ensures { result ≡ child_of token.now tree.now }
{
    match (tree, token) {
        (Json::List(items), Token::Index(i)) => item_index(items.len(), *i),
        (Json::Object(members), Token::Name(name)) => {
            member_index(members.as_slice(), name.as_str())
        }
        _ => None,
    }
}

fn item_index(len: usize, at: u64) -> Option<usize>
    ensures { result ≡ (if nat_lt at len then Some at else None) }
{
    if at < len as u64 {
        Some(at as usize)
    } else {
        None
    }
}

/// The number of the member with a name, by a binary search.
pub fn member_index(members: &[Member], name: &str) -> Option<usize>
    requires { are_ordered (map (λ m. (m.name, has_form m.value)) members.now) ≡ true }
    ensures { result ≡ place_of members.now name.now }
{
    members
        .binary_search_by(|m| m.name.as_str().cmp(&name))
        .ok()
}
