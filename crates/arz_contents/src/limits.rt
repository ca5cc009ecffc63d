// Limits on counts and numbers.
ghost use Rattle.std.specs.Prelude.{◌≡◌, true, IfOk};
ghost use Rattle.arz_json.specs.Tree.{has_form};
ghost use Rattle.arz_rules.specs.Place.{least, tokens_in};
ghost use Rattle.arz_contents.specs.Contents.{long_lists, large_numbers, over_limits, within_limit};

use arz_json::{Json, Place};
use arz_rules::Way::{EachItem, Member};
use arz_rules::{Check, Way, first_at, lesser, root_unless};
use arz_sites::{Below, first_in_actions};
use std::alloc::{AllocError, Global};

/// A list of at most so many items.
#[derive(Clone, Copy, Debug)]
pub struct AtMost {
    pub items: usize,
}

impl Check for AtMost {
    ghost use Rattle.arz_contents.specs.Contents.{longer};

    ghost places = { λ c. longer c.items };

    fn first(&self, alloc: Global, tree: &Json) -> Result<Option<Place>, AllocError> {
        Ok(match tree.as_list() {
            Some(items) => root_unless(alloc, items.len() <= self.items),
            None => None,
        })
    }
}

fn is_within(most: u32, number: i128) -> bool
    ensures { result ≡ within_limit most number }
{
    number <= i128::from(most)
}

/// A number up to this one.
#[derive(Clone, Copy, Debug)]
pub struct UpTo {
    pub most: u32,
}

impl Check for UpTo {
    ghost use Rattle.arz_contents.specs.Contents.{above};

    ghost places = { λ c. above c.most };

    fn first(&self, alloc: Global, tree: &Json) -> Result<Option<Place>, AllocError> {
        Ok(match tree.as_int() {
            Some(number) => root_unless(alloc, is_within(self.most, number)),
            None => None,
        })
    }
}

const SOURCES: [Way<'static>; 1] = [Member("sourceDescriptions")];

const WORKFLOWS: [Way<'static>; 1] = [Member("workflows")];

const STEPS: [Way<'static>; 3] = [Member("workflows"), EachItem, Member("steps")];

const RETRY_LIMIT: [Way<'static>; 1] = [Member("retryLimit")];

const RETRY_AFTER: [Way<'static>; 1] = [Member("retryAfter")];

fn first_long_list(alloc: Global, root: &Json) -> Result<Option<Place>, AllocError>
    requires { has_form root.now ≡ true }
    ensures { IfOk result (λ p. tokens_in p ≡ least (long_lists root.now)) }
{
    let sources = first_at(alloc, &SOURCES, &AtMost { items: 16 }, root)?;
    let workflows = first_at(alloc, &WORKFLOWS, &AtMost { items: 256 }, root)?;
    let steps = first_at(alloc, &STEPS, &AtMost { items: 256 }, root)?;
    let outer = lesser(sources, workflows);
    Ok(lesser(outer, steps))
}

fn first_large_number(alloc: Global, root: &Json) -> Result<Option<Place>, AllocError>
    requires { has_form root.now ≡ true }
    ensures { IfOk result (λ p. tokens_in p ≡ least (large_numbers root.now)) }
{
    let limit = Below {
        ways: &RETRY_LIMIT,
        check: &UpTo { most: 1000 },
    };
    let limits = first_in_actions(alloc, &limit, root)?;
    let after = Below {
        ways: &RETRY_AFTER,
        check: &UpTo { most: 86400 },
    };
    let delays = first_in_actions(alloc, &after, root)?;
    Ok(lesser(limits, delays))
}

/// The least place of a list that is too long, or of a number that is too large.
pub fn first_over_limit(alloc: Global, root: &Json) -> Result<Option<Place>, AllocError>
    requires { has_form root.now ≡ true }
    ensures { IfOk result (λ p. tokens_in p ≡ least (over_limits root.now)) }
{
    let lists = first_long_list(alloc, root)?;
    let numbers = first_large_number(alloc, root)?;
    Ok(lesser(lists, numbers))
}
