//! Why bytes are no tree or entry.

ghost use Rattle.std.specs.Prelude.{◌≡◌};
ghost use Rattle.arz_wire.specs.declared.fault.WireFault.TheVariants.{Memory};

use std::alloc::{AllocError, AllocFailed};
use thiserror::Error;

/// Why bytes are no spelling. A place counts bytes from the first one.
#[derive(Clone, Copy, Debug, PartialEq, Eq, Error)]
pub enum WireFault {
    /// The bytes end too early.
    #[error("the bytes end too early")]
    Short,
    /// The byte at this place is no tag.
    #[error("no tag at {0}")]
    BadTag(u64),
    /// The number, text or name at this place is not in its one form.
    #[error("not in its one form at {0}")]
    NotCanonical(u64),
    /// The list or object at this place nests deeper than 130.
    #[error("nested too deep at {0}")]
    TooDeep(u64),
    /// Memory ran out.
    #[error("out of memory")]
    Memory,
}

impl From<AllocError> for WireFault {
    ghost from_gives = { λ _ e. e ≡ Memory };

    fn from(_e: AllocError) -> WireFault {
        WireFault::Memory
    }
}

impl<T: Drop> From<AllocFailed<T>> for WireFault {
    ghost from_gives = { λ _ e. e ≡ Memory };

    fn from(_e: AllocFailed<T>) -> WireFault {
        WireFault::Memory
    }
}
