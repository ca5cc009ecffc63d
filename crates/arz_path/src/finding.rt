// The node that a place names.
ghost use Rattle.std.specs.Prelude.{◌≡◌};
ghost use Rattle.std.specs.Option.{option_copied};
ghost use Rattle.arz_path.specs.Finding.{child_at, found_at};

use crate::nodes::{item_at, items_of};
use crate::{Place, Token};
use arz_json::Json;

/// The node of a tree that a place names, where there is one. It takes no memory.
pub fn found<'a>(root: &'a Json, place: &Place) -> Option<&'a Json>
    ensures { option_copied result ≡ found_at place.now.tokens root.now }
{
    let mut value = root;
    for token in place.tokens.as_slice() {
        value = child(value, token)?;
    }
    Some(value)
}

fn child<'a>(value: &'a Json, token: &Token) -> Option<&'a Json>
    ensures { option_copied result ≡ child_at token.now value.now }
{
    match token {
        Token::Name(name) => value.get(name.as_str()),
        Token::Index(i) => item_at(items_of(value), *i as usize),
    }
}
