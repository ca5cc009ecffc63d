// Why an answer is refused.
ghost use Rattle.std.specs.Prelude.{◌≡◌};
ghost use Rattle.arz_runs.specs.declared.machine.MachineFault.TheVariants.{Memory};

use std::alloc::AllocError;
use thiserror::Error;

/// Why an answer was refused.
#[derive(Clone, Copy, Debug, PartialEq, Eq, Error)]
pub enum MachineFault {
    /// It is of another kind than what is asked, or nothing is asked.
    #[error("the answer is of another kind than what is asked")]
    WrongKind,
    /// A pattern that a criterion needs was too big. The count of such patterns has risen.
    #[error("a pattern is too big")]
    Pattern,
    /// Memory ran out.
    #[error("out of memory")]
    Memory,
}

impl From<AllocError> for MachineFault {
    ghost from_gives = { λ _ e. e ≡ Memory };

    fn from(_e: AllocError) -> MachineFault {
        MachineFault::Memory
    }
}
