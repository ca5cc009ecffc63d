// Nodes as the code holds them: a reference, and a chain of steps that nodes share, where places are wanted.
ghost use Rattle.std.specs.Prelude.{◌≡◌, map, slice_get, IfOk};
ghost use Rattle.std.specs.Option.{option_copied};
ghost use Rattle.arz_path.specs.Tree.{items_of as items_in_tree, members_of as members_in_tree};
ghost use Rattle.arz_path.specs.Spots.{further as further_place};
ghost use Rattle.arz_path.specs.Seen.{token_of, place_in, seen, found_seen, spots_found};

use arz_json::{Json, Member, Text};
use bumpalo::Bump;
use std::alloc::AllocError;

/// A step to a child, which borrows the name.
#[derive(Clone, Copy)]
pub enum Step<'a> {
    Name(&'a Text),
    Index(u64),
}

/// The steps that lead to a node, the last one first.
#[derive(Clone, Copy)]
pub enum Trail<'t, 'a> {
    Start,
    Child(&'t Trail<'t, 'a>, Step<'a>),
}

/// A node, with no trail where places aren't wanted.
#[derive(Clone, Copy)]
pub struct Held<'t, 'a> {
    pub trail: Option<&'t Trail<'t, 'a>>,
    pub value: &'a Json,
}

/// A child of a node.
#[derive(Clone, Copy)]
pub struct Branch<'a> {
    pub step: Step<'a>,
    pub value: &'a Json,
}

/// The items of a list.
pub fn items_of(value: &Json) -> &[Json]
    ensures { result.now ≡ items_in_tree value.now }
{
    match value {
        Json::List(items) => items.as_slice(),
        _ => &[],
    }
}

/// The members of an object.
pub fn members_of(value: &Json) -> &[Member]
    ensures { result.now ≡ members_in_tree value.now }
{
    match value {
        Json::Object(members) => members.as_slice(),
        _ => &[],
    }
}

/// The item at an index.
pub fn item_at(items: &[Json], at: usize) -> Option<&Json>
    ensures { option_copied result ≡ slice_get items.now at }
{
    items.get(at)
}

/// One step more, where places are wanted.
pub fn further<'t, 'a>(
    bump: &'t Bump,
    trail: Option<&'t Trail<'t, 'a>>,
    step: Step<'a>,
) -> Result<Option<&'t Trail<'t, 'a>>, AllocError>
    ensures { IfOk result (λ all. place_in all ≡ further_place (place_in trail.entry) (token_of step.entry)) }
{
    let Some(before) = trail else {
        return Ok(None);
    };
    let all = bump.try_alloc(Trail::Child(before, step))?;
    Ok(Some(all))
}

/// How many nodes a query found, and the value of the only one.
#[derive(Clone, Copy)]
pub struct Found<'a> {
    pub count: usize,
    pub only: Option<&'a Json>,
}

/// How many nodes there are, and the value of the only one.
pub fn found_among<'a>(nodes: &[Held<'_, 'a>]) -> Found<'a>
    ensures { found_seen result ≡ spots_found (map seen nodes.now) }
{
    let count = nodes.len();
    if count != 1 {
        return Found { count, only: None };
    }
    Found {
        count,
        only: Some(nodes[0].value),
    }
}
