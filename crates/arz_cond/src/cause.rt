// Why it isn't said whether a criterion holds.
ghost use Rattle.std.specs.Prelude.{◌≡◌};
ghost use Rattle.arz_cond.specs.Holding.{search_fault, select_fault};
ghost use Rattle.arz_cond.specs.declared.cause.CondFault.TheVariants.{Memory};

use arz_path::SelectFault;
use arz_rx::SearchFault;
use std::alloc::AllocError;
use thiserror::Error;

/// Why it isn't said whether a criterion holds.
#[derive(Clone, Copy, Debug, PartialEq, Eq, Error)]
pub enum CondFault {
    /// A list of places of a jsonpath criterion had over 1,000,000.
    #[error("the selection is too wide")]
    TooWide,
    /// A pattern was too big to be searched for.
    #[error("a pattern is too big")]
    Pattern,
    /// Memory ran out.
    #[error("out of memory")]
    Memory,
}

impl From<AllocError> for CondFault {
    ghost from_gives = { λ _ e. e ≡ Memory };

    fn from(_: AllocError) -> CondFault {
        CondFault::Memory
    }
}

impl From<SearchFault> for CondFault {
    ghost from_gives = { λ fault e. e ≡ search_fault fault };

    fn from(fault: SearchFault) -> CondFault {
        match fault {
            SearchFault::TooBig => CondFault::Pattern,
            SearchFault::Memory => CondFault::Memory,
        }
    }
}

impl From<SelectFault> for CondFault {
    ghost from_gives = { λ fault e. e ≡ select_fault fault };

    fn from(fault: SelectFault) -> CondFault {
        match fault {
            SelectFault::TooWide => CondFault::TooWide,
            SelectFault::Pattern => CondFault::Pattern,
            SelectFault::Memory => CondFault::Memory,
        }
    }
}
