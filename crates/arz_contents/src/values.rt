// Numbers that aren't kept, and texts that are no expressions.
ghost use Rattle.std.specs.Prelude.{◌≡◌, true, IfOk, map};
ghost use Rattle.arz_json.specs.Tree.{has_form};
ghost use Rattle.arz_rules.specs.Place.{least, tokens_in};
ghost use Rattle.arz_contents.specs.Contents.{fractions, broken_numbers as numbers_broken, bad_texts, text_level, text_level_of, named_texts, in_each_item, in_each_member, asks_context as context_asked, bad_expressions};

use arz_components::text_of;
use arz_json::{Json, Many, Members, Place};
use arz_rules::Way::{EachItem, Member};
use arz_rules::{
    Check, Kind, Way, below_index, below_name, first_at, first_at_each, first_miss, lesser,
    root_unless,
};
use arz_sites::{Wanted, first_in_actions, first_in_criteria, is_value_text, outputs, values};
use std::alloc::{AllocError, Global};

/// A value without a number that isn't kept.
#[derive(Clone, Copy, Debug)]
struct Solid {}

impl Check for Solid {
    ghost use Rattle.arz_contents.specs.Contents.{no_fraction};

    ghost places = { λ _. no_fraction };

    fn first(&self, alloc: Global, tree: &Json) -> Result<Option<Place>, AllocError> {
        first_miss(alloc, tree, Kind::Solid)
    }
}

/// An action whose numbers are kept.
#[derive(Clone, Copy, Debug)]
struct SolidNumbers {}

const RETRY_AFTER: [Way<'static>; 1] = [Member("retryAfter")];

const RETRY_LIMIT: [Way<'static>; 1] = [Member("retryLimit")];

impl Check for SolidNumbers {
    ghost use Rattle.arz_contents.specs.Contents.{broken_numbers};

    ghost places = { λ _. broken_numbers };

    fn first(&self, alloc: Global, tree: &Json) -> Result<Option<Place>, AllocError> {
        first_broken_number(alloc, tree)
    }
}

fn first_broken_number(alloc: Global, action: &Json) -> Result<Option<Place>, AllocError>
    requires { has_form action.now ≡ true }
    ensures { IfOk result (λ p. tokens_in p ≡ least (numbers_broken action.now)) }
{
    let after = first_at(alloc, &RETRY_AFTER, &Solid {}, action)?;
    let limit = first_at(alloc, &RETRY_LIMIT, &Solid {}, action)?;
    Ok(lesser(after, limit))
}

/// The least place of a number that isn't kept.
pub fn first_fraction(alloc: Global, root: &Json) -> Result<Option<Place>, AllocError>
    requires { has_form root.now ≡ true }
    ensures { IfOk result (λ p. tokens_in p ≡ least (fractions root.now)) }
{
    let given = first_at_each(alloc, values(), &Solid {}, root)?;
    let actions = first_in_actions(alloc, &SolidNumbers {}, root)?;
    Ok(lesser(given, actions))
}

#[cycle(texts)]
fn first_bad_text(alloc: Global, tree: &Json) -> Result<Option<Place>, AllocError>
    ensures { IfOk result (λ p. tokens_in p ≡ least (bad_texts tree.now)) }
{
    first_in_level(alloc, tree)
}

#[cycle(texts)]
fn first_in_level(alloc: Global, tree: &Json) -> Result<Option<Place>, AllocError>
    ensures { IfOk result (λ p. tokens_in p ≡ least (text_level (text_level_of tree.now))) }
{
    match tree {
        Json::Text(text) => Ok(root_unless(alloc, is_value_text(alloc, text.as_str())?)),
        Json::List(items) => first_in_items(alloc, items),
        Json::Object(members) => first_in_members(alloc, members),
        _ => Ok(None),
    }
}

#[cycle(texts)]
fn first_in_items(alloc: Global, items: &Many<Json>) -> Result<Option<Place>, AllocError>
    ensures { IfOk result (λ p. tokens_in p ≡ least (in_each_item 0 (map bad_texts items.now))) }
{
    let mut best = None;
    for (i, item) in items.as_slice().iter().enumerate() {
        let found = first_bad_text(alloc, item)?;
        best = lesser(best, below_index(i, found)?);
    }
    Ok(best)
}

#[cycle(texts)]
fn first_in_members(alloc: Global, members: &Members) -> Result<Option<Place>, AllocError>
    ensures { IfOk result (λ p. tokens_in p ≡ least (in_each_member (named_texts members.now))) }
{
    let mut best = None;
    for member in members.as_slice() {
        let found = first_bad_text(alloc, &member.value)?;
        best = lesser(best, below_name(alloc, member.name.as_str(), found)?);
    }
    Ok(best)
}

/// A value whose texts are expressions where they can only mean them.
#[derive(Clone, Copy, Debug)]
struct RightTexts {}

impl Check for RightTexts {
    ghost use Rattle.arz_contents.specs.Contents.{bad_texts};

    ghost places = { λ _. bad_texts };

    fn first(&self, alloc: Global, tree: &Json) -> Result<Option<Place>, AllocError> {
        first_bad_text(alloc, tree)
    }
}

fn asks_context(criterion: &Json) -> bool
    ensures { result ≡ context_asked criterion.now }
{
    match text_of(criterion, "type") {
        Some(kind) => kind != "simple",
        None => false,
    }
}

const CONTEXT: [Way<'static>; 1] = [Member("context")];

/// A criterion of another type than `simple` has an expression as its context.
#[derive(Clone, Copy, Debug)]
struct RightContext {}

impl Check for RightContext {
    ghost use Rattle.arz_contents.specs.Contents.{bad_context};

    ghost places = { λ _. bad_context };

    fn first(&self, alloc: Global, tree: &Json) -> Result<Option<Place>, AllocError> {
        if !asks_context(tree) {
            return Ok(None);
        }
        first_at(alloc, &CONTEXT, &Wanted::Expression, tree)
    }
}

const OPERATION_PATHS: [Way<'static>; 5] = [
    Member("workflows"),
    EachItem,
    Member("steps"),
    EachItem,
    Member("operationPath"),
];

/// The least text that should be an expression, or an operationPath, and is none.
pub fn first_bad_expression(alloc: Global, root: &Json) -> Result<Option<Place>, AllocError>
    requires { has_form root.now ≡ true }
    ensures { IfOk result (λ p. tokens_in p ≡ least (bad_expressions root.now)) }
{
    let results = first_at_each(alloc, outputs(), &Wanted::Expression, root)?;
    let contexts = first_in_criteria(alloc, &RightContext {}, root)?;
    let texts = first_at_each(alloc, values(), &RightTexts {}, root)?;
    let paths = first_at(alloc, &OPERATION_PATHS, &Wanted::OperationPath, root)?;
    let written = lesser(results, contexts);
    let given = lesser(written, texts);
    Ok(lesser(given, paths))
}
