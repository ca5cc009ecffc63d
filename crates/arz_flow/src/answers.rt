// What an execution asks of the outside, what it is answered, and how it ends.
use arz_json::{Members, Text};
use arz_request::Cause;
use arz_world::{Reply as ReplyMessage, Request};

/// What is asked of the outside.
#[derive(Debug, Drop)]
pub enum Ask {
    /// To send a request and give its reply.
    Send(Request),
    /// To let this many seconds pass.
    Wait(u32),
}

/// The answer to an ask.
#[derive(Debug, Drop)]
pub enum Answer {
    /// The reply to a request.
    Reply(ReplyMessage),
    /// The seconds have passed.
    Served,
}

/// A place in a description: a workflow, or one of its steps.
#[derive(Debug, Drop)]
pub struct Spot {
    /// The workflowId.
    pub workflow: Text,
    /// The stepId, where a step is meant.
    pub step: Option<Text>,
}

/// How an execution ends.
#[derive(Debug, Drop)]
pub enum End {
    /// The workflow was completed, with these outputs.
    Completed(Members),
    /// A step failed, and the workflow was left with these outputs.
    Broke(Members),
    /// No answer is left for this ask.
    Out(Ask),
    /// It can't go on at this place.
    Stuck(Cause, Spot),
    /// A request is to be sent, and as many were sent as may be: this many.
    Budget(u32),
}
