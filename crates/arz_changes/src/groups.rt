// Places by the children that they lead to.
ghost use Rattle.std.specs.Prelude.{◌≡◌, ℕ, ◌<◌, ◌==◌, ◌++◌, ◌∷◌, [], length, map, true, IfOk, OnOk, slice_index_or, if◌then◌else◌};
ghost use Rattle.arz_json.specs.declared.place.Token.TheVariants.{Name, Index};
ghost use Rattle.arz_json.specs.Tree.{has_form, are_ordered};
ghost use Rattle.arz_json.specs.declared.tree.Member.{Member as MemberTree};
ghost use Rattle.arz_changes.specs.Removal.{below, has_end as has_an_end};
ghost use Rattle.arz_changes.specs.Groups.{tokens_of, ways_seen, groups_seen};

use crate::children::member_index;
use arz_json::{Member, Token};
use std::alloc::{AllocError, Global};

/// The steps of a place, from some value on.
#[derive(Clone, Copy)]
pub struct Way<'a> {
    pub tokens: &'a [Token],
}

/// Whether one of the ways ends here.
pub fn has_end(ways: &[Way]) -> bool
    ensures { result ≡ has_an_end (ways_seen ways.now) }
{
    for way in ways {
        if way.tokens.is_empty() {
            return true;
        }
    }
    false
}

fn empty_groups<'a>(alloc: Global, count: usize) -> Result<Vec<Vec<Way<'a>>>, AllocError>
    ensures len { IfOk result (λ v. length v.items ≡ count) }
    ensures empty { IfOk result (λ v. (k : ℕ) → slice_index_or (groups_seen v.items) k [] ≡ []) }
{
    let mut groups = Vec::with_capacity(alloc, count)?;
    for _ in 0..count {
        groups.push(Vec::new(alloc))?;
    }
    Ok(groups)
}

// One more way at the end of a group.
fn add<'a>(groups: &mut Vec<Vec<Way<'a>>>, at: usize, way: Way<'a>) -> Result<(), AllocError>
    requires { at < length groups.old.items }
    ensures len { length groups.new.items ≡ length groups.old.items }
    ensures added { OnOk result ((k : ℕ) → slice_index_or (groups_seen groups.new.items) k []
        ≡ slice_index_or (groups_seen groups.old.items) k [] ++ (if k == at then tokens_of way.entry ∷ [] else [])) }
{
    groups[at].push(way)?;
    Ok(())
}

// One more way, below the item that it leads to.
fn add_item<'a>(groups: &mut Vec<Vec<Way<'a>>>, way: Way<'a>) -> Result<(), AllocError>
    ensures len { length groups.new.items ≡ length groups.old.items }
    ensures added { OnOk result ((k : ℕ) → k < length groups.old.items → slice_index_or (groups_seen groups.new.items) k []
        ≡ slice_index_or (groups_seen groups.old.items) k [] ++ below (Index k) (tokens_of way.entry ∷ [])) }
{
    let Some((token, tokens)) = way.tokens.split_first() else {
        return Ok(());
    };
    match token {
        Token::Index(at) => add_below(groups, *at, Way { tokens }),
        Token::Name(_) => Ok(()),
    }
}

fn add_below<'a>(groups: &mut Vec<Vec<Way<'a>>>, at: u64, way: Way<'a>) -> Result<(), AllocError>
    ensures len { length groups.new.items ≡ length groups.old.items }
    ensures added { OnOk result ((k : ℕ) → k < length groups.old.items → slice_index_or (groups_seen groups.new.items) k []
        ≡ slice_index_or (groups_seen groups.old.items) k [] ++ (if k == at then tokens_of way.entry ∷ [] else [])) }
{
    if at >= groups.as_slice().len() as u64 {
        return Ok(());
    }
    add(groups, at as usize, way)
}

// One more way, below the member that it leads to.
fn add_member<'a>(
    groups: &mut Vec<Vec<Way<'a>>>,
    members: &[Member],
    way: Way<'a>,
) -> Result<(), AllocError>
    requires order { are_ordered (map (λ m. (m.name, has_form m.value)) members.now) ≡ true }
    requires len { length groups.old.items ≡ length members.now }
    ensures len { length groups.new.items ≡ length groups.old.items }
    ensures added { OnOk result ((k : ℕ) (d : MemberTree) → k < length members.now → slice_index_or (groups_seen groups.new.items) k []
        ≡ slice_index_or (groups_seen groups.old.items) k [] ++ below (Name (slice_index_or members.now k d).name) (tokens_of way.entry ∷ [])) }
{
    let Some((token, tokens)) = way.tokens.split_first() else {
        return Ok(());
    };
    let Token::Name(name) = token else {
        return Ok(());
    };
    match member_index(members, name.as_str()) {
        Some(at) => add(groups, at, Way { tokens }),
        None => Ok(()),
    }
}

/// The ways below each item of a list of so many items.
pub fn item_groups<'a>(
    alloc: Global,
    count: usize,
    ways: &[Way<'a>],
) -> Result<Vec<Vec<Way<'a>>>, AllocError>
    ensures len { IfOk result (λ v. length v.items ≡ count) }
    ensures groups { IfOk result (λ v. (k : ℕ) → k < count → slice_index_or (groups_seen v.items) k [] ≡ below (Index k) (ways_seen ways.now)) }
{
    let mut groups = empty_groups(alloc, count)?;
    for way in ways {
        add_item(&mut groups, *way)?;
    }
    Ok(groups)
}

/// The ways below each member of an object.
pub fn member_groups<'a>(
    alloc: Global,
    members: &[Member],
    ways: &[Way<'a>],
) -> Result<Vec<Vec<Way<'a>>>, AllocError>
    requires { are_ordered (map (λ m. (m.name, has_form m.value)) members.now) ≡ true }
    ensures len { IfOk result (λ v. length v.items ≡ length members.now) }
    ensures groups { IfOk result (λ v. (k : ℕ) (d : MemberTree) → k < length members.now → slice_index_or (groups_seen v.items) k [] ≡ below (Name (slice_index_or members.now k d).name) (ways_seen ways.now)) }
{
    let mut groups = empty_groups(alloc, members.len())?;
    for way in ways {
        add_member(&mut groups, members, *way)?;
    }
    Ok(groups)
}
