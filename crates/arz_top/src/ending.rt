// What a command comes to.
use arz_json::{Refusal, Text};
use arz_session::Session;

/// What a command comes to.
#[derive(Debug, Drop)]
pub enum Ending {
    /// The words are no command.
    Words,
    /// A read of the file at this path failed.
    File(Text),
    /// This is the first rule that a document fails.
    Refused(Refusal),
    /// A pattern that the documents need as they are read was too big.
    Pattern,
    /// The files of the setup give a bundle.
    Ready,
    /// The workflow was run over the given replies.
    Played(Session),
}
