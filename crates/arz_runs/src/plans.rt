// What a run needs of a workflow and of its steps, read once.
ghost use Rattle.std.specs.Prelude.{◌≡◌, ℕ, List, All, IfOk, map, length};
ghost use Rattle.arz_json.specs.Tree.{IsWellFormed};
ghost use Rattle.arz_components.specs.Indexes.{finds};
ghost use Rattle.arz_sources.specs.Served.{found_in};
ghost use Rattle.arz_description.specs.Calls.{call_of};
ghost use Rattle.arz_description.specs.Parts.{meant};
ghost use Rattle.arz_description.specs.Requests.{AreWellFormed, givens_of};
ghost use Rattle.arz_relation.specs.Documents.{index_of};
ghost use Rattle.arz_actions.specs.Ready.{IsTryable, ready_of, readies, joined_actions};
ghost use Rattle.arz_runs.specs.Planned.{index_in};
ghost use Rattle.arz_runs.specs.Reading.{IsReadableStep, IsReadableFlow, is_operation, operation_as, calls_as, HasActions, IsReadStep, IsReadFlow, AreRead};

use crate::endpoints::endpoint_of;
use crate::given::given;
use arz_actions::{Actions, Ready, joined, read_criteria};
use arz_components::{Components, Part, text_of};
use arz_cond::Test;
use arz_description::{Body, Given, read_body, read_givens};
use arz_flow::Endpoint;
use arz_json::{Json, Many, Text, items_at, text_at};
use arz_sources::Sources;
use std::alloc::{AllocError, Global};
use std::collections::BTreeMap;
use std::rc::Rc;

/// What a step calls (Arazzo 1.0.1, 4.6.5), and what it gives to that.
#[derive(Debug, Drop)]
pub(crate) enum Calls {
    /// An operation: with these parameters, and a body where the step has one.
    Operation(Endpoint, Many<Given>, Option<Body>),
    /// The workflow with this workflowId: its inputs are these.
    Workflow(Text, Many<Given>),
}

/// A step that is read.
#[derive(Drop)]
pub(crate) struct Planned<'a> {
    pub step: &'a Json,
    pub calls: Calls,
    /// Its success criteria.
    pub tests: Many<Test>,
    /// The actions after its success, and those of its workflow with other names.
    pub success: Many<Rc<Ready>>,
    /// Those after its failure.
    pub failure: Many<Rc<Ready>>,
}

/// A workflow that is read.
#[derive(Drop)]
pub(crate) struct Plan<'a> {
    pub workflow: &'a Json,
    pub steps: Vec<Planned<'a>>,
    /// The index of the first step with a stepId.
    pub indexes: BTreeMap<&'a str, usize>,
}

/// What workflows are read with.
#[derive(Drop)]
pub(crate) struct Reader<'r, 's, 'a> {
    pub alloc: Global,
    pub components: &'r Components<'a>,
    pub sources: &'r Sources<'s, 'a>,
}

// A workflow, and its actions as they are read.
#[derive(Drop)]
struct Flow<'a> {
    workflow: &'a Json,
    success: Many<Rc<Ready>>,
    failure: Many<Rc<Ready>>,
}

/// The plans of workflows, by their workflowIds. The first with an id stands.
pub(crate) fn read_plans<'c, 'a>(
    reader: &Reader<'_, '_, 'a>,
    actions: &mut Actions<'c, 'a>,
    workflows: &'a [Json],
) -> Result<BTreeMap<&'a str, Plan<'a>>, AllocError>
    requires components { AreWellFormed (finds reader.now.components.now) }
    requires workflows { All IsWellFormed workflows.now }
    requires readable { All (IsReadableFlow (finds reader.now.components.now)) workflows.now }
    requires same { actions.old.components.now ≡ reader.now.components.now }
    ensures { IfOk result (AreRead (finds reader.now.components.now) (found_in reader.now.sources.now) workflows.now) }
{
    let mut plans = BTreeMap::new(reader.alloc);
    for k in (0..workflows.len()).rev() {
        let workflow = &workflows[k];
        let plan = read_plan(reader, actions, workflow)?;
        plans.insert(text_at(workflow, "workflowId"), plan)?;
    }
    Ok(plans)
}

fn read_plan<'c, 'a>(
    reader: &Reader<'_, '_, 'a>,
    actions: &mut Actions<'c, 'a>,
    workflow: &'a Json,
) -> Result<Plan<'a>, AllocError>
    requires components { AreWellFormed (finds reader.now.components.now) }
    requires workflow { IsWellFormed workflow.now }
    requires readable { IsReadableFlow (finds reader.now.components.now) workflow.now }
    requires same { actions.old.components.now ≡ reader.now.components.now }
    ensures read { IfOk result (IsReadFlow (finds reader.now.components.now) (found_in reader.now.sources.now) workflow.now) }
    ensures same { actions.new.components.now ≡ actions.old.components.now }
{
    let listed = items_at(workflow, "steps");
    let flow = read_flow(actions, workflow)?;
    let steps = read_steps(reader, actions, &flow, listed)?;
    let indexes = indexes(reader.alloc, listed)?;
    Ok(Plan {
        workflow,
        steps,
        indexes,
    })
}

fn read_flow<'c, 'a>(
    actions: &mut Actions<'c, 'a>,
    workflow: &'a Json,
) -> Result<Flow<'a>, AllocError>
    requires { IsReadableFlow (finds actions.old.components.now) workflow.now }
    ensures workflow { IfOk result (λ f. f.workflow.now ≡ workflow.now) }
    ensures actions { IfOk result (HasActions (finds actions.old.components.now)) }
    ensures same { actions.new.components.now ≡ actions.old.components.now }
{
    let success = actions.list(Part::SuccessActions, items_at(workflow, "successActions"))?;
    let failure = actions.list(Part::FailureActions, items_at(workflow, "failureActions"))?;
    Ok(Flow {
        workflow,
        success,
        failure,
    })
}

// The index of the first step with each stepId.
fn indexes<'a>(alloc: Global, steps: &'a [Json]) -> Result<BTreeMap<&'a str, usize>, AllocError>
    ensures { IfOk result (λ m. (q : List ℕ) → index_in m (length steps.now) q ≡ index_of q steps.now) }
{
    let mut indexes = BTreeMap::new(alloc);
    for k in (0..steps.len()).rev() {
        let step = &steps[k];
        indexes.insert(text_at(step, "stepId"), k)?;
    }
    Ok(indexes)
}

fn read_steps<'c, 'a>(
    reader: &Reader<'_, '_, 'a>,
    actions: &mut Actions<'c, 'a>,
    flow: &Flow<'a>,
    steps: &'a [Json],
) -> Result<Vec<Planned<'a>>, AllocError>
    requires components { AreWellFormed (finds reader.now.components.now) }
    requires workflow { IsWellFormed flow.now.workflow.now }
    requires steps { All IsWellFormed steps.now }
    requires readable { All (IsReadableStep (finds reader.now.components.now)) steps.now }
    requires actions { HasActions (finds reader.now.components.now) flow.now }
    requires same { actions.old.components.now ≡ reader.now.components.now }
    ensures steps { IfOk result (λ ps. map (λ p. p.step.now) ps.items ≡ steps.now) }
    ensures each { IfOk result (λ ps. All (IsReadStep (finds reader.now.components.now) (found_in reader.now.sources.now) flow.now.workflow.now) ps.items) }
    ensures same { actions.new.components.now ≡ actions.old.components.now }
{
    let mut list = Vec::with_capacity(reader.alloc, steps.len())?;
    for step in steps {
        list.push(read_step(reader, actions, flow, step)?)?;
    }
    Ok(list)
}

fn read_step<'c, 'a>(
    reader: &Reader<'_, '_, 'a>,
    actions: &mut Actions<'c, 'a>,
    flow: &Flow<'a>,
    step: &'a Json,
) -> Result<Planned<'a>, AllocError>
    requires components { AreWellFormed (finds reader.now.components.now) }
    requires workflow { IsWellFormed flow.now.workflow.now }
    requires step { IsWellFormed step.now }
    requires readable { IsReadableStep (finds reader.now.components.now) step.now }
    requires actions { HasActions (finds reader.now.components.now) flow.now }
    requires same { actions.old.components.now ≡ reader.now.components.now }
    ensures step { IfOk result (λ p. p.step.now ≡ step.now) }
    ensures read { IfOk result (IsReadStep (finds reader.now.components.now) (found_in reader.now.sources.now) flow.now.workflow.now) }
    ensures same { actions.new.components.now ≡ actions.old.components.now }
{
    let calls = read_calls(reader, flow.workflow, step)?;
    let tests = read_criteria(reader.alloc, items_at(step, "successCriteria"))?;
    let own = items_at(step, "onSuccess");
    let success = actions_of(
        reader.alloc,
        actions,
        Part::SuccessActions,
        own,
        &flow.success,
    )?;
    let own = items_at(step, "onFailure");
    let failure = actions_of(
        reader.alloc,
        actions,
        Part::FailureActions,
        own,
        &flow.failure,
    )?;
    Ok(Planned {
        step,
        calls,
        tests,
        success,
        failure,
    })
}

// The actions that a step lists, and those of its workflow that have no name of these.
fn actions_of<'c, 'a>(
    alloc: Global,
    actions: &mut Actions<'c, 'a>,
    part: Part,
    own: &'a [Json],
    others: &Many<Rc<Ready>>,
) -> Result<Many<Rc<Ready>>, AllocError>
    requires { All IsTryable (map (meant (finds actions.old.components.now) part) own.now) }
    ensures joined { IfOk result (λ all. readies all ≡ joined_actions (map ready_of (map (meant (finds actions.old.components.now) part) own.now)) (readies others.now)) }
    ensures same { actions.new.components.now ≡ actions.old.components.now }
{
    let own = actions.list(part, own)?;
    joined(alloc, own.as_slice(), others.as_slice())
}

// What a step calls, and what it gives to that.
#[tactic(auto, using(crate::proofs::Reading::operation_called, crate::proofs::Reading::workflow_called))]
fn read_calls(
    reader: &Reader<'_, '_, '_>,
    workflow: &Json,
    step: &Json,
) -> Result<Calls, AllocError>
    requires components { AreWellFormed (finds reader.now.components.now) }
    requires workflow { IsWellFormed workflow.now }
    requires step { IsWellFormed step.now }
    ensures { IfOk result (λ c. c ≡ calls_as (finds reader.now.components.now) (found_in reader.now.sources.now) workflow.now step.now (call_of step.now)) }
{
    if names_operation(step) {
        return operation(reader, workflow, step);
    }
    let id = Text::from_str(reader.alloc, text_at(step, "workflowId"))?;
    let given = own_givens(reader, step)?;
    Ok(Calls::Workflow(id, given))
}

fn names_operation(step: &Json) -> bool
    ensures { result ≡ is_operation step.now }
{
    text_of(step, "operationId").is_some() || text_of(step, "operationPath").is_some()
}

fn own_givens(reader: &Reader<'_, '_, '_>, step: &Json) -> Result<Many<Given>, AllocError>
    requires components { AreWellFormed (finds reader.now.components.now) }
    requires step { IsWellFormed step.now }
    ensures { IfOk result (λ gs. gs ≡ givens_of (finds reader.now.components.now) step.now) }
{
    read_givens(
        reader.alloc,
        reader.components,
        items_at(step, "parameters"),
    )
}

fn operation(reader: &Reader<'_, '_, '_>, workflow: &Json, step: &Json) -> Result<Calls, AllocError>
    requires components { AreWellFormed (finds reader.now.components.now) }
    requires workflow { IsWellFormed workflow.now }
    requires step { IsWellFormed step.now }
    ensures { IfOk result (λ c. c ≡ operation_as (finds reader.now.components.now) (found_in reader.now.sources.now) workflow.now step.now) }
{
    let alloc = reader.alloc;
    let endpoint = endpoint_of(alloc, reader.sources, step)?;
    let given = given(alloc, reader.components, Some(workflow), step)?;
    let body = read_body(alloc, step)?;
    Ok(Calls::Operation(endpoint, given, body))
}
