// The machine: it makes the requests of a workflow, and is told the answers.
ghost use Rattle.std.specs.Prelude.{◌≡◌, ◌≤◌, length, true};
ghost use Rattle.arz_machine.specs.Plain.{is_plain};
ghost use Rattle.arz_machine.specs.Resting.{rest_of};
ghost use Rattle.arz_machine.specs.States.{has_step};
ghost use Rattle.arz_machine.specs.declared.machine.MachineFault.TheVariants.{Memory};

use crate::run::Run;
use crate::state::State;
use arz_flow::End;
use arz_world::Request;
use std::alloc::AllocError;
use thiserror::Error;

/// What an execution over the answers so far comes to.
pub enum Next<'a> {
    /// This request is to be sent, and its reply told.
    Send(&'a Request),
    /// The execution has ended.
    Ended(&'a End),
}

/// Why an answer was refused.
#[derive(Clone, Copy, Debug, PartialEq, Eq, Error)]
pub enum MachineFault {
    /// It is of another kind than what is asked, or nothing is asked.
    #[error("the answer is of another kind than what is asked")]
    WrongKind,
    /// A pattern that a criterion needs was too big. The count of such patterns has risen.
    #[error("a pattern is too big")]
    Pattern,
    /// Memory ran out.
    #[error("out of memory")]
    Memory,
}

impl From<AllocError> for MachineFault {
    ghost from_gives = { λ _ e. e ≡ Memory };

    fn from(_e: AllocError) -> MachineFault {
        MachineFault::Memory
    }
}

/// An execution of a bundle's starting workflow (Arazzo 1.0.1, 4.6.4), step by step. It rests at the
/// send of a step, or at its end.
#[derive(Drop)]
pub struct Machine<'a> {
    /// What the attempts so far have made.
    pub(crate) run: Run<'a>,
    /// The index of the step whose request is to be sent. It counts the answers.
    pub(crate) step: usize,
    /// Where the execution rests.
    pub(crate) state: State,
    ghost counted: { step ≤ length run.steps.now },
    ghost inside: { has_step (rest_of state) step (length run.steps.now) ≡ true },
    ghost plain: { is_plain (rest_of state) ≡ true },
}
