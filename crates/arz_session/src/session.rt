// What a run of a workflow came to.
ghost use Rattle.std.specs.Prelude.{◌≡◌, ◌≤◌, true, length};
ghost use Rattle.arz_flow.specs.Valid.{steps_limit};
ghost use Rattle.arz_session.specs.Plain.{is_plain};

use arz_flow::End;
use arz_json::{Many, Text};

/// How an ask was answered.
#[derive(Clone, Copy, Debug, PartialEq, Eq)]
pub enum How {
    /// By what the journal holds.
    Held,
    /// By sending it.
    Sent,
    /// By letting the time pass.
    Served,
    /// By a given reply.
    Mock,
}

/// One ask that was answered.
#[derive(Debug, Drop)]
pub struct Line {
    /// The number of the ask, counted from 1.
    pub n: u32,
    /// The ask, as `METHOD URL` or `wait SECONDS`.
    pub ask: Text,
    /// The status of the reply, where one came.
    pub status: Option<u16>,
    /// How the ask was answered.
    pub how: How,
}

/// How a session ended.
#[derive(Debug, Drop)]
pub enum Outcome {
    /// The execution came to this end.
    Ended(End),
    /// A pattern that a criterion of the last ask needs was too big. The count of such patterns has risen.
    Pattern,
}

/// What a run of a workflow came to.
#[derive(Debug, Drop)]
pub struct Session {
    /// A line for each ask that was answered, in order.
    pub lines: Many<Line>,
    /// How the session ended.
    pub outcome: Outcome,
    ghost few: { length lines ≤ steps_limit },
    ghost plain: { is_plain outcome ≡ true },
}
