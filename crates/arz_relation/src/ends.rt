// How an execution ends.
use arz_flow::{Ask, Cause, Spot};
use arz_json::Members;

/// How an execution ends.
#[derive(Debug, Drop)]
pub enum End {
    /// The workflow was completed, with these outputs.
    Completed(Members),
    /// A step failed, and the workflow was left with these outputs.
    Broke(Members),
    /// No answer is left for this ask.
    Out(Ask),
    /// It can't go on at this place.
    Stuck(Cause, Spot),
    /// A run of a workflow is entered at this place, and as many are open as may be.
    TooDeep(Spot),
    /// A request is to be sent, and as many were sent as may be: this many.
    Budget(u32),
}
