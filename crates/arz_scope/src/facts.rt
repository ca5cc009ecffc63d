// What an attempt of a step leaves, and a run of a workflow.
use arz_json::{Members, Text};

/// The outputs of one attempt of a step (Arazzo 1.0.1, 4.6.5).
#[derive(Debug, Drop)]
pub struct Fact {
    /// The stepId.
    pub step: Text,
    /// The step's outputs, in ascending byte order of their names.
    pub outputs: Members,
}

/// A run of a workflow that was completed (Arazzo 1.0.1, 4.6.4).
#[derive(Debug, Drop)]
pub struct Completion {
    /// The workflowId.
    pub workflow: Text,
    /// The run's inputs, in ascending byte order of their names.
    pub inputs: Members,
    /// The run's outputs, in ascending byte order of their names.
    pub outputs: Members,
}
