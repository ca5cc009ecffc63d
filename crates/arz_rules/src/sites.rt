// Rules at the sites of a document.
ghost use Rattle.std.specs.Prelude.{◌≡◌, IfOk, map, true};
ghost use Rattle.arz_json.specs.Tree.{has_form, all_true};
ghost use Rattle.arz_rules.specs.Place.{least, tokens_in};
ghost use Rattle.arz_rules.specs.Sites.{seen_way, seen_site, at as at_site, at_each as at_sites, in_items, in_members};

use crate::look::child;
use crate::place::{below_index, below_name, lesser};
use arz_json::{Json, Member, Place};
use std::alloc::{AllocError, Global};

/// One step to a site.
#[derive(Clone, Copy, Debug)]
pub enum Way<'w> {
    /// To the value of the member with this name.
    Member(&'w str),
    /// To each item of a list.
    EachItem,
    /// To the value of each member of an object.
    EachMember,
}

/// A rule's look at one tree.
pub trait Check {
    ghost use Rattle.std.specs.Prelude.{List};
    ghost use Rattle.arz_json.specs.declared.tree.Json.{Json};
    ghost use Rattle.arz_json.specs.declared.place.Token.{Token};

    /// The places, below a tree, at which the rule fails.
    ghost places: { Self → Json → List (List Token) };

    /// The least place at which the rule fails.
    fn first(&self, alloc: Global, tree: &Json) -> Result<Option<Place>, AllocError>
        requires { has_form tree.now ≡ true }
        ensures { IfOk result (λ p. tokens_in p ≡ least (places self.now tree.now)) };
}

/// The least place at which the check fails at a site: at one of the trees to which the steps lead.
#[cycle(site)]
pub fn first_at<C: Check>(
    alloc: Global,
    ways: &[Way],
    check: &C,
    tree: &Json,
) -> Result<Option<Place>, AllocError>
    requires { has_form tree.now ≡ true }
    ensures { IfOk result (λ p. tokens_in p ≡ least (at_site (map seen_way ways.now) (C.places check.now) tree.now)) }
{
    let Some((way, rest)) = ways.split_first() else {
        return check.first(alloc, tree);
    };
    match way {
        Way::Member(name) => match child(tree, name) {
            Some(value) => below_name(alloc, name, first_at(alloc, rest, check, value)?),
            None => Ok(None),
        },
        Way::EachItem => match tree.as_list() {
            Some(items) => first_in_items(alloc, rest, check, items),
            None => Ok(None),
        },
        Way::EachMember => match tree.as_object() {
            Some(members) => first_in_members(alloc, rest, check, members),
            None => Ok(None),
        },
    }
}

#[cycle(site)]
fn first_in_items<C: Check>(
    alloc: Global,
    rest: &[Way],
    check: &C,
    items: &[Json],
) -> Result<Option<Place>, AllocError>
    requires { all_true (map has_form items.now) ≡ true }
    ensures { IfOk result (λ p. tokens_in p ≡ least (in_items (at_site (map seen_way rest.now) (C.places check.now)) 0 items.now)) }
{
    let mut best = None;
    for (i, item) in items.iter().enumerate() {
        let found = first_at(alloc, rest, check, item)?;
        best = lesser(best, below_index(i, found)?);
    }
    Ok(best)
}

#[cycle(site)]
fn first_in_members<C: Check>(
    alloc: Global,
    rest: &[Way],
    check: &C,
    members: &[Member],
) -> Result<Option<Place>, AllocError>
    requires { all_true (map (λ m. has_form m.value) members.now) ≡ true }
    ensures { IfOk result (λ p. tokens_in p ≡ least (in_members (at_site (map seen_way rest.now) (C.places check.now)) members.now)) }
{
    let mut best = None;
    for member in members {
        let found = first_at(alloc, rest, check, &member.value)?;
        best = lesser(best, below_name(alloc, member.name.as_str(), found)?);
    }
    Ok(best)
}

/// The least place at which the check fails at one of the sites.
pub fn first_at_each<C: Check>(
    alloc: Global,
    sites: &[&[Way]],
    check: &C,
    tree: &Json,
) -> Result<Option<Place>, AllocError>
    requires { has_form tree.now ≡ true }
    ensures { IfOk result (λ p. tokens_in p ≡ least (at_sites (map seen_site sites.now) (C.places check.now) tree.now)) }
{
    let mut best = None;
    for ways in sites {
        best = lesser(best, first_at(alloc, ways, check, tree)?);
    }
    Ok(best)
}
