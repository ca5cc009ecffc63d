// Path items behind references.
ghost use Rattle.std.specs.Prelude.{◌≡◌, [], ◌∷◌, ◌++◌, IfOk, IfSome, OnOk, option_map, option_and_then, codes};
ghost use Rattle.std.specs.Option.{option_copied};
ghost use Rattle.serde_json.specs.Find.{index_of};
ghost use Rattle.arz_json.specs.Look.{members_at};
ghost use Rattle.arz_rules.specs.Place.{least, tokens_in};
ghost use Rattle.arz_openapi.specs.Rules.{item_misses, item_at, member_at, step_to, spot as spot_at, spot_from, below as below_place, local as local_pointer, pointer_of, spot_of, behind, behind_member, behind_members};
ghost use Rattle.arz_openapi.specs.Spots.{seen_step, seen_spot};

use crate::sites::is_path;
use crate::tokens::{decode, index};
use arz_json::{Json, Many, Member, Place, Text, Token, members_at, value_named};
use arz_rules::{Kind, first_miss, lesser};
use std::alloc::{AllocError, Global};

/// The longest chain of references that is followed.
const LONGEST: u8 = 32;

fn first_item_miss(alloc: Global, item: &Json) -> Result<Option<Place>, AllocError>
    ensures { IfOk result (λ p. tokens_in p ≡ least (item_misses item.now)) }
{
    match item.as_object() {
        Some(_) => first_miss(alloc, item, Kind::PathItem),
        None => Ok(None),
    }
}

/// A step from a tree, and where it leads.
#[derive(Drop)]
pub(crate) struct Step<'a> {
    token: Token,
    tree: &'a Json,
}

fn item_step<'a>(items: &'a [Json], token: &str) -> Option<Step<'a>>
    ensures { option_map seen_step result ≡ option_and_then (item_at items.now) (index_of token.now) }
{
    let i = index(token)?;
    match items.get(i) {
        Some(tree) => Some(Step {
            token: Token::Index(i as u64),
            tree,
        }),
        None => None,
    }
}

fn member_step<'a>(members: &'a [Member], name: Option<Text>) -> Option<Step<'a>>
    ensures { option_map seen_step result ≡ option_and_then (member_at members.now) name }
{
    let name = name?;
    match value_named(members, name.as_str()) {
        Some(tree) => Some(Step {
            token: Token::Name(name),
            tree,
        }),
        None => None,
    }
}

fn find_step<'a>(alloc: Global, tree: &'a Json, token: &str) -> Result<Option<Step<'a>>, AllocError>
    ensures { IfOk result (λ s. option_map seen_step s ≡ step_to token.now tree.now) }
{
    match tree {
        Json::List(items) => Ok(item_step(items.as_slice(), token)),
        Json::Object(members) => Ok(member_step(members.as_slice(), decode(alloc, token)?)),
        _ => Ok(None),
    }
}

/// What a pointer names, and its place.
#[derive(Drop)]
pub(crate) struct Spot<'a> {
    tokens: Many<Token>,
    tree: &'a Json,
}

fn locate<'a>(alloc: Global, root: &'a Json, pointer: &str) -> Result<Option<Spot<'a>>, AllocError>
    ensures { IfOk result (λ s. option_map seen_spot s ≡ spot_at pointer.now root.now) }
{
    let mut tokens = Many::new(alloc);
    if pointer.is_empty() {
        return Ok(Some(Spot { tokens, tree: root }));
    }
    let Some(text) = pointer.strip_prefix('/') else {
        return Ok(None);
    };
    let mut rest = text;
    let mut tree = root;
    'tokens: while let Some((token, more)) = rest.split_once('/') {
        let Some(next) = find_step(alloc, tree, token)? else {
            return Ok(None);
        };
        tokens.push(next.token)?;
        tree = next.tree;
        rest = more;
    }
    let Some(last) = find_step(alloc, tree, rest)? else {
        return Ok(None);
    };
    tokens.push(last.token)?;
    Ok(Some(Spot {
        tokens,
        tree: last.tree,
    }))
}

fn push_all(tokens: &mut Many<Token>, more: Many<Token>) -> Result<(), AllocError>
    ensures { OnOk result (tokens.new ≡ tokens.old ++ more) }
{
    for token in more.into_std() {
        tokens.push(token)?;
    }
    Ok(())
}

fn below(place: Many<Token>, found: Option<Place>) -> Result<Option<Place>, AllocError>
    ensures { IfOk result (λ p. tokens_in p ≡ option_map (λ q. place ++ q) (tokens_in found)) }
{
    let mut tokens = place;
    match found {
        Some(found) => {
            push_all(&mut tokens, found.tokens)?;
            Ok(Some(Place { tokens }))
        }
        None => Ok(None),
    }
}

fn local_text(text: &str) -> Option<&str>
    ensures { option_copied result ≡ local_pointer text.now }
{
    text.strip_prefix('#')
}

fn pointer_in<'a>(item: &'a Json) -> Option<&'a str>
    ensures { option_copied result ≡ pointer_of item.now }
{
    local_text(item.get("$ref")?.as_text()?)
}

fn spot_behind<'a>(
    alloc: Global,
    root: &'a Json,
    item: &Json,
) -> Result<Option<Spot<'a>>, AllocError>
    ensures { IfOk result (λ s. option_map seen_spot s ≡ spot_of root.now (pointer_of item.now)) }
{
    match pointer_in(item) {
        Some(pointer) => locate(alloc, root, pointer),
        None => Ok(None),
    }
}

fn first_below(alloc: Global, tokens: Many<Token>, item: &Json) -> Result<Option<Place>, AllocError>
    ensures { IfOk result (λ p. tokens_in p ≡ least (below_place tokens (item_misses item.now))) }
{
    below(tokens, first_item_miss(alloc, item)?)
}

fn first_behind(
    alloc: Global,
    left: u8,
    root: &Json,
    item: &Json,
) -> Result<Option<Place>, AllocError>
    ensures { IfOk result (λ p. tokens_in p ≡ least (behind left root.now item.now)) }
{
    if left == 0 {
        return Ok(None);
    }
    let Some(next) = spot_behind(alloc, root, item)? else {
        return Ok(None);
    };
    let own = first_below(alloc, next.tokens, next.tree)?;
    let further = first_behind(alloc, left - 1, root, next.tree)?;
    Ok(lesser(own, further))
}

fn first_behind_path(
    alloc: Global,
    root: &Json,
    member: &Member,
) -> Result<Option<Place>, AllocError>
    ensures { IfOk result (λ p. tokens_in p ≡ least (behind_member root.now member.now)) }
{
    if !is_path(member.name.as_str()) {
        return Ok(None);
    }
    first_behind(alloc, LONGEST, root, &member.value)
}

/// The least place at which a path item behind a reference misses its kind.
pub(crate) fn first_behind_paths(alloc: Global, root: &Json) -> Result<Option<Place>, AllocError>
    ensures { IfOk result (λ p. tokens_in p ≡ least (behind_members root.now (members_at (codes "paths") root.now))) }
{
    let mut best = None;
    for member in members_at(root, "paths") {
        let found = first_behind_path(alloc, root, member)?;
        best = lesser(best, found);
    }
    Ok(best)
}
