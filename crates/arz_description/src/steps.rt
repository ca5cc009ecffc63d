// Steps and workflows.
ghost use Rattle.std.specs.Prelude.{◌≡◌, IfOk, All, map, option_map};
ghost use Rattle.arz_json.specs.Tree.{IsWellFormed};
ghost use Rattle.arz_components.specs.Indexes.{finds};
ghost use Rattle.arz_description.specs.Requests.{AreWellFormed};
ghost use Rattle.arz_description.specs.Described.{inputs_in as inputs_meant, required_of, step_of, workflow_of};

use crate::actions::{read_actions, read_criteria};
use crate::calls::read_call;
use crate::lists::{read_text, read_texts};
use crate::outputs::read_outputs;
use crate::parts::{Step, Workflow};
use crate::requests::{read_body, read_givens};
use arz_components::{Components, Part, input_name, text_of};
use arz_json::{Json, Many, Text, items_at, members_at};
use std::alloc::{AllocError, Global};

fn read_step(alloc: Global, components: &Components, tree: &Json) -> Result<Step, AllocError>
    requires components { AreWellFormed (finds components.now) }
    requires tree { IsWellFormed tree.now }
    ensures { IfOk result (λ s. s ≡ step_of (finds components.now) tree.now) }
{
    let givens = items_at(tree, "parameters");
    let successes = items_at(tree, "onSuccess");
    let failures = items_at(tree, "onFailure");
    Ok(Step {
        id: read_text(alloc, tree, "stepId")?,
        call: read_call(alloc, tree)?,
        parameters: read_givens(alloc, components, givens)?,
        body: read_body(alloc, tree)?,
        criteria: read_criteria(alloc, items_at(tree, "successCriteria"))?,
        on_success: read_actions(alloc, components, Part::SuccessActions, successes)?,
        on_failure: read_actions(alloc, components, Part::FailureActions, failures)?,
        outputs: read_outputs(alloc, members_at(tree, "outputs"))?,
    })
}

fn read_steps(
    alloc: Global,
    components: &Components,
    items: &[Json],
) -> Result<Many<Step>, AllocError>
    requires components { AreWellFormed (finds components.now) }
    requires items { All IsWellFormed items.now }
    ensures { IfOk result (λ ss. ss ≡ map (step_of (finds components.now)) items.now) }
{
    let mut steps = Vec::with_capacity(alloc, items.len())?;
    for item in items {
        steps.push(read_step(alloc, components, item)?)?;
    }
    Ok(Many::from_std(steps))
}

fn inputs_in<'a: 'i, 'i>(components: &Components<'a>, inputs: &'i Json) -> Option<&'i Json>
    ensures { option_map (λ j. j.now) result ≡ inputs_meant (finds components.now) inputs.now }
{
    match text_of(inputs, "$ref") {
        Some(reference) => components.find(Part::Inputs, input_name(reference)?),
        None => Some(inputs),
    }
}

fn read_required(
    alloc: Global,
    components: &Components,
    workflow: &Json,
) -> Result<Many<Text>, AllocError>
    ensures { IfOk result (λ ts. ts ≡ required_of (finds components.now) workflow.now) }
{
    let Some(inputs) = workflow.get("inputs") else {
        return Ok(Many::new(alloc));
    };
    match inputs_in(components, inputs) {
        Some(inputs) => read_texts(alloc, items_at(inputs, "required")),
        None => Ok(Many::new(alloc)),
    }
}

fn read_workflow(
    alloc: Global,
    components: &Components,
    tree: &Json,
) -> Result<Workflow, AllocError>
    requires components { AreWellFormed (finds components.now) }
    requires tree { IsWellFormed tree.now }
    ensures { IfOk result (λ w. w ≡ workflow_of (finds components.now) tree.now) }
{
    let givens = items_at(tree, "parameters");
    let steps = items_at(tree, "steps");
    let successes = items_at(tree, "successActions");
    let failures = items_at(tree, "failureActions");
    Ok(Workflow {
        id: read_text(alloc, tree, "workflowId")?,
        depends: read_texts(alloc, items_at(tree, "dependsOn"))?,
        required: read_required(alloc, components, tree)?,
        parameters: read_givens(alloc, components, givens)?,
        steps: read_steps(alloc, components, steps)?,
        on_success: read_actions(alloc, components, Part::SuccessActions, successes)?,
        on_failure: read_actions(alloc, components, Part::FailureActions, failures)?,
        outputs: read_outputs(alloc, members_at(tree, "outputs"))?,
    })
}

/// The workflows of a list.
pub fn read_workflows(
    alloc: Global,
    components: &Components,
    items: &[Json],
) -> Result<Many<Workflow>, AllocError>
    requires components { AreWellFormed (finds components.now) }
    requires items { All IsWellFormed items.now }
    ensures { IfOk result (λ ws. ws ≡ map (workflow_of (finds components.now)) items.now) }
{
    let mut workflows = Vec::with_capacity(alloc, items.len())?;
    for item in items {
        workflows.push(read_workflow(alloc, components, item)?)?;
    }
    Ok(Many::from_std(workflows))
}
