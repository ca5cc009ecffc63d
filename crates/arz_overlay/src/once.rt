// Places, each once.
ghost use Rattle.std.specs.Prelude.{◌≡◌, ◌++◌, ◌∷◌, [], ◌||◌, ℕ, List, map, false, IfOk, OnOk, if◌then◌else◌};
ghost use Rattle.std.specs.Str.{bytes_eq};
ghost use Rattle.arz_json.specs.Tree.{IsWellFormed};
ghost use Rattle.arz_overlay.specs.Applied.{token_tree as tree_of_token, key_of, has_key};
ghost use Rattle.arz_changes.specs.Groups.{places_seen, tokens_of, ways_seen};
ghost use Rattle.arz_overlay.specs.Steps.{each_once as once};

use arz_changes::Way;
use arz_json::{Bytes, Json, Place, Token};
use arz_wire::write;
use std::alloc::{AllocError, Global};
use std::collections::BTreeMap;

/// A set of bytes that stand for places.
#[derive(Drop)]
pub(crate) struct KeySet<'k> {
    there: BTreeMap<&'k [u8], ()>,
}

impl<'k> KeySet<'k> {
    fn new(alloc: Global) -> KeySet<'k>
        ensures { (q : List ℕ) → has_key result q ≡ false }
    {
        KeySet {
            there: BTreeMap::new(alloc),
        }
    }

    // Puts bytes into the set, and says whether they were there.
    fn put(&mut self, key: &'k [u8]) -> Result<bool, AllocError>
        ensures was { IfOk result (λ was. was ≡ has_key self.old key.now) }
        ensures now { OnOk result ((q : List ℕ) → has_key self.new q ≡ bytes_eq key.now q || has_key self.old q) }
    {
        let old = self.there.insert(key, ())?;
        Ok(old.is_some())
    }
}

/// The places without those that stand before, in order. It takes time in the tokens of the places, times the
/// logarithm of their number.
pub(crate) fn each_once<'p>(alloc: Global, places: &'p [Place]) -> Result<Vec<Way<'p>>, AllocError>
    ensures { IfOk result (λ ways. ways_seen ways.items ≡ once (places_seen places.now)) }
{
    let keys = keys(alloc, places)?;
    let mut seen = KeySet::new(alloc);
    let mut ways = Vec::new(alloc);
    for (at, place) in places.iter().enumerate() {
        let is_there = seen.put(keys[at].as_slice())?;
        let tokens = place.tokens.as_slice();
        push_unless(is_there, Way { tokens }, &mut ways)?;
    }
    Ok(ways)
}

fn push_unless<'p>(is_there: bool, way: Way<'p>, ways: &mut Vec<Way<'p>>) -> Result<(), AllocError>
    ensures { OnOk result (ways_seen ways.new.items ≡ ways_seen ways.old.items ++ (if is_there then [] else tokens_of way.entry ∷ [])) }
{
    if !is_there {
        ways.push(way)?;
    }
    Ok(())
}

/// The places as they are.
pub(crate) fn all_ways<'p>(alloc: Global, places: &'p [Place]) -> Result<Vec<Way<'p>>, AllocError>
    ensures { IfOk result (λ ways. ways_seen ways.items ≡ places_seen places.now) }
{
    let mut ways = Vec::with_capacity(alloc, places.len())?;
    for place in places {
        let tokens = place.tokens.as_slice();
        ways.push(Way { tokens })?;
    }
    Ok(ways)
}

fn keys(alloc: Global, places: &[Place]) -> Result<Vec<Bytes>, AllocError>
    ensures { IfOk result (λ keys. keys.items ≡ map key_of (places_seen places.now)) }
{
    let mut keys = Vec::with_capacity(alloc, places.len())?;
    for place in places {
        keys.push(key(alloc, place.tokens.as_slice())?)?;
    }
    Ok(keys)
}

fn key(alloc: Global, tokens: &[Token]) -> Result<Bytes, AllocError>
    ensures { IfOk result (λ key. key ≡ key_of tokens.now) }
{
    let mut key = Vec::new(alloc);
    for token in tokens {
        let tree = token_tree(alloc, token)?;
        let bytes = write(alloc, &tree)?;
        key.extend_from_slice(bytes.as_slice())?;
    }
    Ok(Bytes::from_std(key))
}

fn token_tree(alloc: Global, token: &Token) -> Result<Json, AllocError>
    ensures tree { IfOk result (λ j. j ≡ tree_of_token token.now) }
    ensures form { IfOk result IsWellFormed }
{
    match token {
        Token::Name(name) => Ok(Json::Text(name.copy(alloc)?)),
        Token::Index(at) => Ok(Json::Int(i128::from(*at))),
    }
}
