// Why an overlay was not read or not applied.
ghost use Rattle.std.specs.Prelude.{◌≡◌};
ghost use Rattle.arz_overlay.specs.Applied.{from_rule, from_change};
ghost use Rattle.arz_overlay.specs.declared.fault.OverlayFault.TheVariants.{Memory};
ghost use Rattle.arz_overlay.specs.declared.fault.StepFault.TheVariants.{Memory as StepMemory};

use arz_changes::ChangeFault;
use arz_json::Refusal;
use arz_rules::RuleFault;
use std::alloc::{AllocError, AllocFailed};
use thiserror::Error;

/// Why an overlay was not read or not applied.
#[derive(Debug, Drop, Error)]
pub enum OverlayFault {
    /// The overlay fails a rule, or one of its actions does at its turn.
    #[error("a rule fails")]
    Refused(Refusal),
    /// A pattern was too big to be searched for. The count of such patterns has risen.
    #[error("a pattern is too big")]
    Pattern,
    /// There was not enough memory.
    #[error("out of memory")]
    Memory,
}

impl From<AllocError> for OverlayFault {
    ghost from_gives = { λ _ e. e ≡ Memory };

    fn from(_: AllocError) -> OverlayFault {
        OverlayFault::Memory
    }
}

impl<T: Drop> From<AllocFailed<T>> for OverlayFault {
    ghost from_gives = { λ _ e. e ≡ Memory };

    fn from(_: AllocFailed<T>) -> OverlayFault {
        OverlayFault::Memory
    }
}

impl From<RuleFault> for OverlayFault {
    ghost from_gives = { λ fault e. e ≡ from_rule fault };

    fn from(fault: RuleFault) -> OverlayFault {
        match fault {
            RuleFault::Refused(refusal) => OverlayFault::Refused(refusal),
            RuleFault::Memory => OverlayFault::Memory,
        }
    }
}

/// Why an action was not done.
#[derive(Clone, Copy, Debug, PartialEq, Eq)]
pub(crate) enum StepFault {
    /// It fails this rule.
    Rule(u8),
    /// There was not enough memory.
    Memory,
}

impl From<AllocError> for StepFault {
    ghost from_gives = { λ _ e. e ≡ StepMemory };

    fn from(_: AllocError) -> StepFault {
        StepFault::Memory
    }
}

impl From<ChangeFault> for StepFault {
    ghost from_gives = { λ fault e. e ≡ from_change fault };

    fn from(fault: ChangeFault) -> StepFault {
        match fault {
            ChangeFault::Target => StepFault::Rule(25),
            ChangeFault::Mismatch => StepFault::Rule(26),
            ChangeFault::Memory => StepFault::Memory,
        }
    }
}
