use arz_expr::{Body, Expr, Given};
use arz_json::{Many, Text};
use arz_operation::Call;

/// A source description (Arazzo 1.0.1, section 4.6.3).
#[derive(Debug, Drop)]
pub struct Source {
    pub name: Text,
    /// The URL, as it is written.
    pub url: Text,
    /// The type, `openapi` where none is written.
    pub kind: Text,
}

/// A criterion (Arazzo 1.0.1, section 4.6.11).
#[derive(Debug, Drop)]
pub struct Criterion {
    /// The type, `simple` where none is written.
    pub kind: Text,
    pub condition: Text,
    pub context: Option<Text>,
}

/// What a retry does before the step is tried again (Arazzo 1.0.1, section 4.6.8).
#[derive(Debug, Drop)]
pub enum First {
    Nothing,
    /// The step with this stepId, in the same workflow.
    Step(Text),
    /// The workflow with this workflowId.
    Flow(Text),
}

/// What an action does (Arazzo 1.0.1, sections 4.6.7 and 4.6.8).
#[derive(Debug, Drop)]
pub enum Act {
    /// The workflow ends.
    End,
    /// It goes on at the step with this stepId.
    GoStep(Text),
    /// The workflow with this workflowId runs in its place.
    GoFlow(Text),
    /// The step is tried again: after so many seconds, at most so often, and what goes first.
    Retry(u32, u32, First),
}

/// A success action or a failure action (Arazzo 1.0.1, sections 4.6.7 and 4.6.8).
#[derive(Debug, Drop)]
pub struct Action {
    pub name: Text,
    pub act: Act,
    pub criteria: Many<Criterion>,
}

/// An output of a step or of a workflow: its name, and the expression whose value it is.
#[derive(Debug, Drop)]
pub struct Output {
    pub name: Text,
    pub value: Expr,
}

/// A step (Arazzo 1.0.1, section 4.6.5).
#[derive(Debug, Drop)]
pub struct Step {
    pub id: Text,
    pub call: Call,
    pub parameters: Many<Given>,
    /// The body of its request, where it gives a payload.
    pub body: Option<Body>,
    pub criteria: Many<Criterion>,
    pub on_success: Many<Action>,
    pub on_failure: Many<Action>,
    pub outputs: Many<Output>,
}

/// A workflow (Arazzo 1.0.1, section 4.6.4).
#[derive(Debug, Drop)]
pub struct Workflow {
    pub id: Text,
    /// The workflowIds of those that must be completed before.
    pub depends: Many<Text>,
    /// The names of the inputs that it requires.
    pub required: Many<Text>,
    pub parameters: Many<Given>,
    pub steps: Many<Step>,
    pub on_success: Many<Action>,
    pub on_failure: Many<Action>,
    pub outputs: Many<Output>,
}

/// A description of workflows (Arazzo 1.0.1, section 4.6.1), with components in the place of the reusable objects
/// that refer to them.
#[derive(Debug, Drop)]
pub struct Description {
    pub sources: Many<Source>,
    pub workflows: Many<Workflow>,
}
