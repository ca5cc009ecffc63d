// Why a selection is given up.
ghost use Rattle.std.specs.Prelude.{◌≡◌};
ghost use Rattle.arz_path.specs.Results.{search_fault};
ghost use Rattle.arz_path.specs.declared.fault.SelectFault.TheVariants.{Memory};

use arz_rx::SearchFault;
use std::alloc::{AllocError, AllocFailed};
use thiserror::Error;

/// Why a selection was given up.
#[derive(Clone, Copy, Debug, PartialEq, Eq, Error)]
pub enum SelectFault {
    /// A list of places after a segment had over 1,000,000.
    #[error("the selection is too wide")]
    TooWide,
    /// A pattern was too big to be searched for.
    #[error("a pattern is too big")]
    Pattern,
    /// There was not enough memory.
    #[error("out of memory")]
    Memory,
}

impl From<AllocError> for SelectFault {
    ghost from_gives = { λ _ e. e ≡ Memory };

    fn from(_: AllocError) -> SelectFault {
        SelectFault::Memory
    }
}

impl<T: Drop> From<AllocFailed<T>> for SelectFault {
    ghost from_gives = { λ _ e. e ≡ Memory };

    fn from(_: AllocFailed<T>) -> SelectFault {
        SelectFault::Memory
    }
}

impl From<SearchFault> for SelectFault {
    ghost from_gives = { λ fault e. e ≡ search_fault fault };

    fn from(fault: SearchFault) -> SelectFault {
        match fault {
            SearchFault::TooBig => SelectFault::Pattern,
            SearchFault::Memory => SelectFault::Memory,
        }
    }
}
