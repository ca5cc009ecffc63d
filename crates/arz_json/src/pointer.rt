ghost use Rattle.std.specs.Prelude.{◌≡◌, ℕ, IfSome, ◌<◌, ◌≤◌, ◌↔◌, ◌∷◌, ◌==◌, length, drop, None, Some, option_map, option_and_then, MatchOption, IsTrue, slice_index};
ghost use Rattle.std.specs.Option.{option_copied};
ghost use Rattle.serde_json.specs.Find.{index_of};
ghost use Rattle.arz_json.specs.Tree.{IsWithin};
ghost use Rattle.arz_json.specs.Pointer.{decoded, member_named, step as one_step, named};

use crate::tree::{Json, Members};
use fast_float::Numeral;

/// What a JSON Pointer names in a tree (RFC 6901, section 4), and `None` where the text is no pointer
/// or names nothing. It takes no memory. What is named nests no deeper than the tree.
pub fn at<'a>(root: &'a Json, pointer: &str) -> Option<&'a Json>
    ensures value { option_copied result ≡ named pointer.now root.now }
    ensures within { (n : ℕ) → IsWithin n root.now → IfSome (option_copied result) (IsWithin n) }
{
    named_at(root, pointer)
}

fn named_at<'a>(root: &'a Json, pointer: &str) -> Option<&'a Json>
    ensures { option_copied result ≡ named pointer.now root.now }
{
    if pointer.is_empty() {
        return Some(root);
    }
    let mut rest = pointer.strip_prefix('/')?;
    let mut target = root;
    'tokens: while let Some((token, more)) = rest.split_once('/') {
        target = step(target, token)?;
        rest = more;
    }
    step(target, rest)
}

fn step<'a>(target: &'a Json, token: &str) -> Option<&'a Json>
    ensures { option_copied result ≡ one_step token.now target.now }
{
    match target {
        Json::List(items) => items.get(array_index(token)?),
        Json::Object(members) => find(members, token),
        _ => None,
    }
}

/// The number that a text spells as an index of a list: `0`, or digits without a leading zero, below
/// 2^64 (RFC 6901, section 4). Every other text spells none.
pub(crate) fn array_index(text: &str) -> Option<usize>
    ensures { result ≡ index_of text.now }
{
    let bytes = text.as_bytes();
    let numeral = Numeral::scan(bytes);
    let index = numeral.to_u64()?;
    if (numeral.len() == bytes.len()) & ((bytes.len() == 1) | !starts_with_zero(bytes)) {
        Some(index as usize)
    } else {
        None
    }
}

fn starts_with_zero(bytes: &[u8]) -> bool
    ensures { result ≡ (slice_index bytes.now 0 == 48) }
{
    !bytes.is_empty() && bytes[0] == b'0'
}

fn find<'a>(members: &'a Members, token: &str) -> Option<&'a Json>
    ensures { option_copied result ≡ option_and_then (member_named members.now) (decoded token.now) }
{
    for member in members.as_slice() {
        if decodes_to(token.as_bytes(), member.name.as_str().as_bytes()) {
            return Some(&member.value);
        }
    }
    None
}

pub(crate) fn decodes_to(token: &[u8], name: &[u8]) -> bool
    ensures { IsTrue result ↔ (decoded token.now ≡ Some name.now) }
{
    let mut at = 0;
    let mut matched = 0;
    while at < token.len() {
        let Some((byte, next)) = decoded_at(token, at) else {
            return false;
        };
        if matched >= name.len() || name[matched] != byte {
            return false;
        }
        at = next;
        matched += 1;
    }
    matched == name.len()
}

fn decoded_at(token: &[u8], at: usize) -> Option<(u8, usize)>
    requires { at < length token.now }
    ensures { MatchOption result (decoded (drop at token.now) ≡ None)
        (λ r. (decoded (drop at token.now) ≡ option_map (λ name. r.0 ∷ name) (decoded (drop r.1 token.now)))
        × (at < r.1) × (r.1 ≤ length token.now)) }
{
    let byte = token[at];
    if byte != b'~' {
        return Some((byte, at + 1));
    }
    if at + 1 == token.len() {
        return None;
    }
    match token[at + 1] {
        b'1' => Some((b'/', at + 2)),
        b'0' => Some((b'~', at + 2)),
        _ => None,
    }
}
