// Criteria and actions.
ghost use Rattle.std.specs.Prelude.{◌≡◌, ℤ, IfOk, map, option_map};
ghost use Rattle.std.specs.Option.{option_copied};
ghost use Rattle.arz_components.specs.Indexes.{finds};
ghost use Rattle.arz_description.specs.Parts.{criterion_of, count_or as count_or_other, number_or as number_or_other, first_of, go_of, retry_of, act_of, action_of, meant as stands, actions_of};

use crate::lists::{read_text, read_text_if, read_text_or};
use crate::parts::{Act, Action, Criterion, First};
use arz_components::{Components, Part, actual, text_of};
use arz_json::{Json, Many, Text, items_at, text_at};
use std::alloc::{AllocError, Global};

fn read_criterion(alloc: Global, tree: &Json) -> Result<Criterion, AllocError>
    ensures { IfOk result (λ c. c ≡ criterion_of tree.now) }
{
    let kind = read_text_or(alloc, tree, "type", "simple")?;
    let condition = read_text(alloc, tree, "condition")?;
    let context = read_text_if(alloc, tree, "context")?;
    Ok(Criterion {
        kind,
        condition,
        context,
    })
}

/// The criteria of a list.
pub fn read_criteria(alloc: Global, items: &[Json]) -> Result<Many<Criterion>, AllocError>
    ensures { IfOk result (λ cs. cs ≡ map criterion_of items.now) }
{
    let mut criteria = Vec::with_capacity(alloc, items.len())?;
    for item in items {
        criteria.push(read_criterion(alloc, item)?)?;
    }
    Ok(Many::from_std(criteria))
}

fn count_or(number: Option<i128>, other: u32) -> u32
    ensures { result ≡ count_or_other other number }
{
    match number {
        Some(n) => if 0 <= n && n < 4_294_967_296 {
            n as u32
        } else {
            other
        },
        None => other,
    }
}

fn number_or(tree: &Json, name: &str, other: u32) -> u32
    ensures { result ≡ number_or_other other name.now tree.now }
{
    match tree.get(name) {
        Some(value) => count_or(value.as_int(), other),
        None => other,
    }
}

fn read_first(alloc: Global, tree: &Json) -> Result<First, AllocError>
    ensures { IfOk result (λ f. f ≡ first_of tree.now) }
{
    if let Some(id) = text_of(tree, "stepId") {
        return Ok(First::Step(Text::from_str(alloc, id)?));
    }
    match text_of(tree, "workflowId") {
        Some(id) => Ok(First::Flow(Text::from_str(alloc, id)?)),
        None => Ok(First::Nothing),
    }
}

fn read_go(alloc: Global, tree: &Json) -> Result<Act, AllocError>
    ensures { IfOk result (λ act. act ≡ go_of tree.now) }
{
    if let Some(id) = text_of(tree, "stepId") {
        return Ok(Act::GoStep(Text::from_str(alloc, id)?));
    }
    match text_of(tree, "workflowId") {
        Some(id) => Ok(Act::GoFlow(Text::from_str(alloc, id)?)),
        None => Ok(Act::End),
    }
}

fn read_retry(alloc: Global, tree: &Json) -> Result<Act, AllocError>
    ensures { IfOk result (λ act. act ≡ retry_of tree.now) }
{
    let seconds = number_or(tree, "retryAfter", 0);
    let limit = number_or(tree, "retryLimit", 1);
    Ok(Act::Retry(seconds, limit, read_first(alloc, tree)?))
}

/// What an action does (Arazzo 1.0.1, sections 4.6.7 and 4.6.8).
pub fn read_act(alloc: Global, tree: &Json) -> Result<Act, AllocError>
    ensures { IfOk result (λ act. act ≡ act_of tree.now) }
{
    match text_at(tree, "type") {
        "goto" => read_go(alloc, tree),
        "retry" => read_retry(alloc, tree),
        _ => Ok(Act::End),
    }
}

fn read_action(alloc: Global, tree: &Json) -> Result<Action, AllocError>
    ensures { IfOk result (λ action. action ≡ action_of tree.now) }
{
    let name = read_text(alloc, tree, "name")?;
    let act = read_act(alloc, tree)?;
    let criteria = read_criteria(alloc, items_at(tree, "criteria"))?;
    Ok(Action {
        name,
        act,
        criteria,
    })
}

/// The component to which an item of this part refers, or the item itself where it refers to none.
pub fn meant<'a: 'i, 'i>(components: &Components<'a>, part: Part, item: &'i Json) -> &'i Json
    ensures { result.now ≡ stands (finds components.now) part item.now }
{
    actual(components, part, item).unwrap_or(item)
}

/// The actions of a list, whose items may refer to components of this part.
pub fn read_actions(
    alloc: Global,
    components: &Components,
    part: Part,
    items: &[Json],
) -> Result<Many<Action>, AllocError>
    ensures { IfOk result (λ actions. actions ≡ actions_of (finds components.now) part items.now) }
{
    let mut actions = Vec::with_capacity(alloc, items.len())?;
    for item in items {
        actions.push(read_action(alloc, meant(components, part, item))?)?;
    }
    Ok(Many::from_std(actions))
}
