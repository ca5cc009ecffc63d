// What is executed.
use arz_json::{Json, Many, Members, Named, NamedText, Text};

/// All that an execution rests on: the documents, and what the setup says.
#[derive(Debug, Drop)]
pub struct Bundle {
    /// The description (Arazzo 1.0.1, 4.6.1).
    pub arazzo: Json,
    /// The source documents, in the description's order (Arazzo 1.0.1, 4.6.3).
    pub sources: Many<Named>,
    /// The base URL of a source, by the source's name, where the setup gives one.
    pub servers: Many<NamedText>,
    /// The workflowId of the workflow that is run.
    pub workflow: Text,
    /// The inputs of that run.
    pub inputs: Members,
    /// How many requests may be sent.
    pub max_attempts: u32,
    /// Whether waits are skipped.
    pub skip_delay: bool,
    /// How many bytes the journal may have.
    pub journal_limit: u64,
}
