// The rules that the parameters and the body of an operation must keep.
ghost use Rattle.std.specs.Prelude.{◌≡◌, IfOk, option_map, Ok, Some, min};
ghost use Rattle.arz_operation.specs.References.{seen as seen_meant};
ghost use Rattle.arz_openapi.specs.Sites.{seen};
ghost use Rattle.arz_openapi.specs.Parts.{lost_rule, lesser_rule as lesser_of, kind_rule, part_rule, items_rule, list_rule, parameters_by, parameters_rule, body_by, body_rule, operation_rule};

use crate::sites::Site;
use arz_json::Json;
use arz_operation::{Lost, follow};
use arz_rules::{Kind, first_miss};
use std::alloc::{AllocError, Global};

fn rule_of_lost(lost: Lost) -> u8
    ensures { result ≡ lost_rule lost }
{
    match lost {
        Lost::NotText => 3,
        Lost::Unknown => 8,
        Lost::Outer => 18,
        Lost::TooLong => 19,
    }
}

fn lesser_rule(left: Option<u8>, right: Option<u8>) -> Option<u8>
    ensures { result ≡ lesser_of left right }
{
    match (left, right) {
        (Some(rule), Some(other)) => Some(if other < rule { other } else { rule }),
        (Some(rule), None) => Some(rule),
        (None, other) => other,
    }
}

fn rule_of_kind(alloc: Global, kind: Kind, tree: &Json) -> Result<Option<u8>, AllocError>
    ensures { IfOk result (λ r. r ≡ kind_rule kind (Ok tree.now)) }
{
    match first_miss(alloc, tree, kind)? {
        Some(_) => Ok(Some(3)),
        None => Ok(None),
    }
}

fn rule_of_part(
    alloc: Global,
    kind: Kind,
    root: &Json,
    tree: &Json,
) -> Result<Option<u8>, AllocError>
    ensures { IfOk result (λ r. r ≡ part_rule kind root.now tree.now) }
{
    match follow(root, tree) {
        Ok(meant) => rule_of_kind(alloc, kind, meant),
        Err(lost) => Ok(Some(rule_of_lost(lost))),
    }
}

fn rule_of_items(alloc: Global, root: &Json, items: &[Json]) -> Result<Option<u8>, AllocError>
    ensures { IfOk result (λ r. r ≡ items_rule root.now items.now) }
{
    let mut least = None;
    for item in items {
        let rule = rule_of_part(alloc, Kind::OperationParameter, root, item)?;
        least = lesser_rule(least, rule);
    }
    Ok(least)
}

fn rule_of_list(alloc: Global, root: &Json, list: &Json) -> Result<Option<u8>, AllocError>
    ensures { IfOk result (λ r. r ≡ parameters_by root.now (Some list.now)) }
{
    match list.as_list() {
        Some(items) => rule_of_items(alloc, root, items),
        None => Ok(Some(3)),
    }
}

fn rule_of_parameters(alloc: Global, root: &Json, tree: &Json) -> Result<Option<u8>, AllocError>
    ensures { IfOk result (λ r. r ≡ parameters_rule root.now tree.now) }
{
    match tree.get("parameters") {
        Some(list) => rule_of_list(alloc, root, list),
        None => Ok(None),
    }
}

fn rule_of_body(alloc: Global, root: &Json, operation: &Json) -> Result<Option<u8>, AllocError>
    ensures { IfOk result (λ r. r ≡ body_rule root.now operation.now) }
{
    match operation.get("requestBody") {
        Some(body) => rule_of_part(alloc, Kind::OperationBody, root, body),
        None => Ok(None),
    }
}

/// The least rule that fails at an operation's parameters, its body or their references.
pub(crate) fn rule_of_operation(
    alloc: Global,
    root: &Json,
    site: &Site,
) -> Result<Option<u8>, AllocError>
    ensures { IfOk result (λ r. r ≡ operation_rule root.now (seen site.now)) }
{
    let item = rule_of_parameters(alloc, root, site.item)?;
    let own = rule_of_parameters(alloc, root, site.operation)?;
    let body = rule_of_body(alloc, root, site.operation)?;
    Ok(lesser_rule(item, lesser_rule(own, body)))
}
