ghost use Rattle.std.specs.Prelude.{◌≡◌, ◌↔◌, [], ◌<◌, ◌≤◌, length, map, None, Some, slice_get, IsTrue, true, false, OnOk, OnErr, IsOk, IfSome, IfNone, IsSomeAnd, option_and_then};
ghost use Rattle.arz_json.specs.Pointer.{decoded, named};
ghost use Rattle.arz_json.specs.Put.{children, child_of, set_child, set_value, place_of, traded, traded_child, traded_from, with_value, put_depth, Trades};
ghost use Rattle.arz_json.specs.Tree.{IsWellFormed, depth, largest};

use crate::many::Many;
use crate::pointer::{array_index, decodes_to};
use crate::tree::{Json, Members};
use std::mem;
use thiserror::Error;

/// Why a value was not put. Each hands the value back.
#[derive(Debug, Drop, Error)]
pub enum PutFault {
    /// The pointer names nothing.
    #[error("no such place")]
    NoPlace(Json),
    /// The tree would nest deeper than 127.
    #[error("nested too deep")]
    TooNested(Json),
}

/// Puts a value at the place that a JSON Pointer names (RFC 6901), in place of what stands there. It
/// takes no memory, and a refusal leaves the tree as it was.
pub fn put(root: &mut Json, pointer: &str, new: Json) -> Result<(), PutFault>
    requires tree { IsWellFormed root.old }
    requires value { IsWellFormed new }
    ensures ok { IsOk result ↔ IsSomeAnd (with_value new pointer.now root.old) (λ j. depth j ≤ put_depth) }
    ensures put { OnOk result (with_value new pointer.now root.old ≡ Some root.new) }
    ensures no_place { (result ≡ Err (PutFault.NoPlace new)) ↔ (named pointer.now root.old ≡ None) }
    ensures too_nested { (result ≡ Err (PutFault.TooNested new))
        ↔ IsSomeAnd (with_value new pointer.now root.old) (λ j. put_depth < depth j) }
    ensures err { OnErr result (root.new ≡ root.old) }
    ensures well_formed { IsWellFormed root.new }
{
    let mut item = new;
    if !trade(root, pointer, &mut item) {
        return Err(PutFault::NoPlace(item));
    }
    if !is_deeper(root, 127) {
        return Ok(());
    }
    trade(root, pointer, &mut item);
    Err(PutFault::TooNested(item))
}

// Trades the value at the place for the item, where there is such a place.
fn trade(root: &mut Json, pointer: &str, item: &mut Json) -> bool
    ensures { Trades (traded item.old pointer.now root.old) result root.old root.new item.old item.new }
{
    if pointer.is_empty() {
        mem::swap(root, item);
        return true;
    }
    let Some(rest) = pointer.strip_prefix('/') else {
        return false;
    };
    let tree = mem::replace(root, Json::Null);
    let (tree, found) = trade_from(tree, rest, item);
    *root = tree;
    found
}

fn trade_from(tree: Json, rest: &str, item: &mut Json) -> (Json, bool)
    ensures { Trades (traded_from item.old [] rest.now tree) result.1 tree result.0 item.old item.new }
{
    let Some((token, more)) = rest.split_once('/') else {
        return trade_child(tree, rest, item);
    };
    let Some(at) = child_index(&tree, token) else {
        return (tree, false);
    };
    let (tree, child) = swap_child(tree, at, Json::Null);
    let (child, found) = trade_from(child, more, item);
    let (tree, _) = swap_child(tree, at, child);
    (tree, found)
}

fn trade_child(tree: Json, token: &str, item: &mut Json) -> (Json, bool)
    ensures { Trades (traded_child (λ k. Some (item.old, k)) token.now tree) result.1 tree result.0 item.old item.new }
{
    let Some(at) = child_index(&tree, token) else {
        return (tree, false);
    };
    let new = mem::replace(item, Json::Null);
    let (tree, child) = swap_child(tree, at, new);
    *item = child;
    (tree, true)
}

fn child_index(tree: &Json, token: &str) -> Option<usize>
    ensures place { IfSome result (λ i. child_of token.now tree.now ≡ Some i) }
    ensures within { IfSome result (λ i. i < length (children tree.now)) }
    ensures none { IfNone result (option_and_then (slice_get (children tree.now)) (child_of token.now tree.now) ≡ None) }
{
    match tree {
        Json::List(items) => {
            let at = array_index(token)?;
            if at < items.len() { Some(at) } else { None }
        }
        Json::Object(members) => member_index(members, token),
        _ => None,
    }
}

fn member_index(members: &Members, token: &str) -> Option<usize>
    ensures { result ≡ option_and_then (place_of members.now) (decoded token.now) }
{
    for (i, member) in members.as_slice().iter().enumerate() {
        if decodes_to(token.as_bytes(), member.name.as_str().as_bytes()) {
            return Some(i);
        }
    }
    None
}

/// Trades a child for another: the item of a list, or the value of an object's member, by its number, which
/// counts from 0. It takes no memory.
pub fn swap_child(tree: Json, at: usize, child: Json) -> (Json, Json)
    requires { at < length (children tree) }
    ensures after { result.0 ≡ set_child tree at child }
    ensures child { slice_get (children tree) at ≡ Some result.1 }
{
    let mut child = child;
    match tree {
        Json::List(mut items) => {
            items.swap_item(at, &mut child);
            (Json::List(items), child)
        }
        Json::Object(members) => {
            let members = swap_value(members, at, &mut child);
            (Json::Object(members), child)
        }
        other => (other, child),
    }
}

fn swap_value(members: Members, at: usize, value: &mut Json) -> Members
    requires { at < length members }
    ensures after { result ≡ set_value members at value.old }
    ensures value { slice_get (map (λ m. m.value) members) at ≡ Some value.new }
{
    let mut items = members.into_std();
    mem::swap(&mut items[at].value, value);
    Many::from_std(items)
}

/// Whether the tree nests deeper than the limit. It takes no memory.
#[cycle(deeper)]
pub fn is_deeper(value: &Json, limit: usize) -> bool
    ensures { IsTrue result ↔ (limit < depth value.now) }
{
    match value {
        Json::List(items) => limit == 0 || items_deeper(items, limit - 1),
        Json::Object(members) => limit == 0 || members_deeper(members, limit - 1),
        _ => false,
    }
}

#[cycle(deeper)]
fn items_deeper(items: &Many<Json>, limit: usize) -> bool
    ensures { IsTrue result ↔ (limit < largest (map depth items.now)) }
{
    for item in items.as_slice() {
        if is_deeper(item, limit) {
            return true;
        }
    }
    false
}

#[cycle(deeper)]
fn members_deeper(members: &Members, limit: usize) -> bool
    ensures { IsTrue result ↔ (limit < largest (map (λ m. depth m.value) members.now)) }
{
    for member in members.as_slice() {
        if is_deeper(&member.value, limit) {
            return true;
        }
    }
    false
}
