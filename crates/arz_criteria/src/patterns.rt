// The patterns of a description's criteria.
ghost use Rattle.std.specs.Prelude.{◌≡◌, ◌++◌, [], true, ◌∷◌, IfOk, OnOk, map};
ghost use Rattle.arz_json.specs.Tree.{has_form, all_true};
ghost use Rattle.arz_rules.specs.Sites.{seen_site, seen_way, found as trees_at, all_items, all_members};
ghost use Rattle.arz_criteria.specs.Rules.{criteria_sites as sites_of_criteria, is_regex as has_pattern, patterns_in};
ghost use Rattle.arz_criteria.specs.Taken.{patterns_among, texts_of};

use arz_json::{Json, Member, text_at};
use arz_rules::Way::{EachItem, EachMember, Member as Named};
use arz_rules::{Way, child};
use std::alloc::{AllocError, Global};

/// Whether a criterion has a pattern.
pub(crate) fn is_regex(criterion: &Json) -> bool
    ensures { result ≡ has_pattern criterion.now }
{
    match criterion.get("type") {
        Some(kind) => kind.as_text() == Some("regex"),
        None => false,
    }
}

const STEPS: [Way<'static>; 6] = [
    Named("workflows"),
    EachItem,
    Named("steps"),
    EachItem,
    Named("successCriteria"),
    EachItem,
];

const SUCCESS_OF_WORKFLOWS: [Way<'static>; 6] = [
    Named("workflows"),
    EachItem,
    Named("successActions"),
    EachItem,
    Named("criteria"),
    EachItem,
];

const SUCCESS_OF_STEPS: [Way<'static>; 8] = [
    Named("workflows"),
    EachItem,
    Named("steps"),
    EachItem,
    Named("onSuccess"),
    EachItem,
    Named("criteria"),
    EachItem,
];

const FAILURE_OF_WORKFLOWS: [Way<'static>; 6] = [
    Named("workflows"),
    EachItem,
    Named("failureActions"),
    EachItem,
    Named("criteria"),
    EachItem,
];

const FAILURE_OF_STEPS: [Way<'static>; 8] = [
    Named("workflows"),
    EachItem,
    Named("steps"),
    EachItem,
    Named("onFailure"),
    EachItem,
    Named("criteria"),
    EachItem,
];

const SHARED_SUCCESS: [Way<'static>; 5] = [
    Named("components"),
    Named("successActions"),
    EachMember,
    Named("criteria"),
    EachItem,
];

const SHARED_FAILURE: [Way<'static>; 5] = [
    Named("components"),
    Named("failureActions"),
    EachMember,
    Named("criteria"),
    EachItem,
];

fn criteria_sites() -> &'static [&'static [Way<'static>]]
    ensures { map seen_site result.now ≡ sites_of_criteria }
{
    &[
        &STEPS,
        &SUCCESS_OF_WORKFLOWS,
        &SUCCESS_OF_STEPS,
        &FAILURE_OF_WORKFLOWS,
        &FAILURE_OF_STEPS,
        &SHARED_SUCCESS,
        &SHARED_FAILURE,
    ]
}

/// The patterns of a description's criteria, in the order of the sites.
pub(crate) fn patterns_at_sites<'a>(
    alloc: Global,
    root: &'a Json,
) -> Result<Vec<&'a str>, AllocError>
    requires { has_form root.now ≡ true }
    ensures { IfOk result (λ v. texts_of v.items ≡ patterns_in root.now) }
{
    let mut found = Vec::new(alloc);
    for ways in criteria_sites() {
        put_patterns(&mut found, ways, root)?;
    }
    Ok(found)
}

#[cycle(patterns)]
fn put_patterns<'a>(
    found: &mut Vec<&'a str>,
    ways: &[Way],
    tree: &'a Json,
) -> Result<(), AllocError>
    requires { has_form tree.now ≡ true }
    ensures { OnOk result (texts_of found.new.items ≡ texts_of found.old.items ++ patterns_among (trees_at (map seen_way ways.now) tree.now)) }
{
    let Some((way, rest)) = ways.split_first() else {
        return put_pattern(found, tree);
    };
    match way {
        Way::Member(name) => match child(tree, name) {
            Some(value) => put_patterns(found, rest, value),
            None => Ok(()),
        },
        Way::EachItem => match tree.as_list() {
            Some(items) => put_from_items(found, rest, items),
            None => Ok(()),
        },
        Way::EachMember => match tree.as_object() {
            Some(members) => put_from_members(found, rest, members),
            None => Ok(()),
        },
    }
}

fn put_pattern<'a>(found: &mut Vec<&'a str>, criterion: &'a Json) -> Result<(), AllocError>
    ensures { OnOk result (texts_of found.new.items ≡ texts_of found.old.items ++ patterns_among (criterion.now ∷ [])) }
{
    if is_regex(criterion) {
        found.push(text_at(criterion, "condition"))?;
    }
    Ok(())
}

#[cycle(patterns)]
fn put_from_items<'a>(
    found: &mut Vec<&'a str>,
    rest: &[Way],
    items: &'a [Json],
) -> Result<(), AllocError>
    requires { all_true (map has_form items.now) ≡ true }
    ensures { OnOk result (texts_of found.new.items ≡ texts_of found.old.items ++ patterns_among (all_items (trees_at (map seen_way rest.now)) items.now)) }
{
    for item in items {
        put_patterns(found, rest, item)?;
    }
    Ok(())
}

#[cycle(patterns)]
fn put_from_members<'a>(
    found: &mut Vec<&'a str>,
    rest: &[Way],
    members: &'a [Member],
) -> Result<(), AllocError>
    requires { all_true (map (λ m. has_form m.value) members.now) ≡ true }
    ensures { OnOk result (texts_of found.new.items ≡ texts_of found.old.items ++ patterns_among (all_members (trees_at (map seen_way rest.now)) members.now)) }
{
    for member in members {
        put_patterns(found, rest, &member.value)?;
    }
    Ok(())
}
