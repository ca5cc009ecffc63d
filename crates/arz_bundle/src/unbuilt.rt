// What isn't built yet in a description.
ghost use Rattle.std.specs.Prelude.{◌≡◌, IfOk, map};
ghost use Rattle.arz_json.specs.Tree.{IsWithin};
ghost use Rattle.arz_rules.specs.Place.{least, tokens_in};
ghost use Rattle.arz_rules.specs.Sites.{seen_site};
ghost use Rattle.arz_bundle.specs.Unbuilt.{unbuilt_members as members_unbuilt, second_of, unbuilt_of_description};

use arz_json::{Json, Place};
use arz_rules::Way::{EachItem, Member};
use arz_rules::{Check, Way, below_index, first_at, first_at_each, lesser, root_place};
use std::alloc::{AllocError, Global};

/// The least place of what isn't built in a description.
pub(crate) fn first_unbuilt_of_description(
    alloc: Global,
    root: &Json,
) -> Result<Option<Place>, AllocError>
    requires { IsWithin 127 root.now }
    ensures { IfOk result (λ p. tokens_in p ≡ least (unbuilt_of_description root.now)) }
{
    let second = first_at(alloc, &[Member("workflows")], &Second {}, root)?;
    let members = first_at_each(alloc, unbuilt_members(), &Everywhere {}, root)?;
    Ok(lesser(second, members))
}

// The members of workflows and steps that aren't built.
fn unbuilt_members() -> &'static [&'static [Way<'static>]]
    ensures { map seen_site result.now ≡ members_unbuilt }
{
    &[
        &[Member("workflows"), EachItem, Member("dependsOn")],
        &[Member("workflows"), EachItem, Member("successActions")],
        &[Member("workflows"), EachItem, Member("failureActions")],
        &[
            Member("workflows"),
            EachItem,
            Member("steps"),
            EachItem,
            Member("workflowId"),
        ],
        &[
            Member("workflows"),
            EachItem,
            Member("steps"),
            EachItem,
            Member("onSuccess"),
        ],
        &[
            Member("workflows"),
            EachItem,
            Member("steps"),
            EachItem,
            Member("onFailure"),
        ],
    ]
}

/// The check that fails at each tree.
#[derive(Clone, Copy, Debug)]
struct Everywhere {}

impl Check for Everywhere {
    ghost use Rattle.arz_bundle.specs.Unbuilt.{everywhere};

    ghost places = { λ _. everywhere };

    fn first(&self, alloc: Global, _tree: &Json) -> Result<Option<Place>, AllocError> {
        Ok(Some(root_place(alloc)))
    }
}

/// The check that a list has no second item.
#[derive(Clone, Copy, Debug)]
struct Second {}

impl Check for Second {
    ghost use Rattle.arz_bundle.specs.Unbuilt.{second};

    ghost places = { λ _. second };

    fn first(&self, alloc: Global, tree: &Json) -> Result<Option<Place>, AllocError> {
        match tree.as_list() {
            Some(items) => second_place(alloc, items),
            None => Ok(None),
        }
    }
}

fn second_place(alloc: Global, items: &[Json]) -> Result<Option<Place>, AllocError>
    ensures { IfOk result (λ p. tokens_in p ≡ least (second_of items.now)) }
{
    match items {
        [_, _, ..] => below_index(1, Some(root_place(alloc))),
        _ => Ok(None),
    }
}
