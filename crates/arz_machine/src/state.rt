// Where an execution rests.
ghost use Rattle.arz_scope.specs.Shallow.{SendsShallow};

use arz_flow::End;
use arz_world::Request;

/// A request that can be sent. Its values nest at most 127 deep.
#[derive(Debug, Drop)]
pub(crate) struct Ready {
    pub request: Request,
    ghost shallow: { SendsShallow request },
}

/// Where an execution rests: at the send of a step's request, or at its end.
#[derive(Debug, Drop)]
pub(crate) enum State {
    /// This request is to be sent.
    Sends(Ready),
    /// The execution has ended.
    Ended(End),
}
