// The runs that are open, and where the execution rests.
use arz_description::First;
use arz_flow::Fact;
use arz_json::{Many, Members, Text};
use arz_relation::{Count, End};
use arz_world::Request;

/// What comes after an attempt of a step.
#[derive(Debug, Drop)]
pub(crate) enum Then {
    /// An action of it is taken; its retries were made so often since it was entered.
    Acts(Many<Count>),
    /// The step at this index is tried again, which named it to go first; the retries of that step were made so often.
    Again(usize, Many<Count>),
}

/// What the result of a run is for.
#[derive(Debug, Drop)]
pub(crate) enum Purpose {
    /// It is the result of the execution.
    Execution,
    /// The run below depends on the workflow. The dependencies from this index on come next.
    Dependency(usize),
    /// It is what the attempt of the step at this index came to.
    Attempt(usize, Then),
    /// It is the result of the run below, which went over to the workflow.
    Instead,
    /// Nothing: the step at this index is tried again, whose retries were made so often.
    Before(usize, Many<Count>),
}

/// A run that is open.
#[derive(Debug, Drop)]
pub(crate) struct Frame {
    /// The workflowId.
    pub workflow: Text,
    /// The run's inputs.
    pub inputs: Members,
    /// The last fact of each of its steps.
    pub facts: Many<Fact>,
    /// What its result is for.
    pub purpose: Purpose,
}

/// Where an execution rests.
#[derive(Debug, Drop)]
pub(crate) enum State {
    /// This request of the step at this index of the innermost run is to be sent, and what comes after the attempt.
    Sends(Request, usize, Then),
    /// So many seconds are to pass, and then the step at this index is tried again, whose retries were made so often, after
    /// what goes first.
    Waits(u32, usize, Many<Count>, First),
    /// The execution has ended.
    Ended(End),
}
