// What is to be done next while an answer is taken.
use crate::frames::{Purpose, State, Then};
use arz_flow::{Fact, Spot};
use arz_json::{Members, Text};

/// A run that is to be made over those that are open.
#[derive(Debug, Drop)]
pub(crate) struct Opening {
    /// The workflowId.
    pub workflow: Text,
    pub inputs: Members,
    /// What its result is for.
    pub purpose: Purpose,
    /// The place that it is made from.
    pub at: Spot,
}

/// How a run ended.
#[derive(Debug, Drop)]
pub(crate) struct Ending {
    /// Whether it was completed; otherwise it is broken.
    pub completed: bool,
    pub outputs: Members,
}

/// What is to be done next in the innermost run.
#[derive(Debug, Drop)]
pub(crate) enum Goal {
    /// The step at this index is attempted, and then this comes.
    Attempt(usize, Then),
    /// Another run is made.
    Open(Opening),
    /// The run is over.
    Over(Ending),
    /// Nothing: the execution rests there.
    Rest(State),
}

/// What an attempt has left, and what is to be done next.
#[derive(Debug, Drop)]
pub(crate) struct Attempted {
    /// Its fact, where its criteria could be tried.
    pub fact: Option<Fact>,
    pub goal: Goal,
}
