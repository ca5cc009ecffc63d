// Why files give nothing.
ghost use Rattle.std.specs.Prelude.{◌≡◌};
ghost use Rattle.arz_bundle.specs.declared.fault.LoadFault.TheVariants.{Memory};

use arz_json::{Refusal, Text};
use arz_overlay::OverlayFault;
use arz_rules::RuleFault;
use arz_rx::SearchFault;
use std::alloc::{AllocError, AllocFailed};
use thiserror::Error;

/// Why files give nothing.
#[derive(Debug, Drop, Error)]
pub enum LoadFault {
    /// A read of the file at this path failed.
    #[error("a file couldn't be read")]
    File(Text),
    /// This is the first rule that a file fails.
    #[error("a file is refused")]
    Refused(Refusal),
    /// A pattern that an overlay's target or a criterion needs was too big. The count of such patterns has risen.
    #[error("a pattern is too big")]
    Pattern,
    /// Memory ran out.
    #[error("out of memory")]
    Memory,
}

impl From<AllocError> for LoadFault {
    ghost from_gives = { λ _ e. e ≡ Memory };

    fn from(_: AllocError) -> Self {
        LoadFault::Memory
    }
}

impl<T: Drop> From<AllocFailed<T>> for LoadFault {
    ghost from_gives = { λ _ e. e ≡ Memory };

    fn from(_: AllocFailed<T>) -> Self {
        LoadFault::Memory
    }
}

impl From<RuleFault> for LoadFault {
    ghost use Rattle.arz_bundle.specs.FileTree.{load_fault};

    ghost from_gives = { λ f e. e ≡ load_fault f };

    fn from(fault: RuleFault) -> Self {
        match fault {
            RuleFault::Refused(refusal) => LoadFault::Refused(refusal),
            RuleFault::Memory => LoadFault::Memory,
        }
    }
}

impl From<OverlayFault> for LoadFault {
    ghost use Rattle.arz_bundle.specs.FileTree.{overlay_fault};

    ghost from_gives = { λ f e. e ≡ overlay_fault f };

    fn from(fault: OverlayFault) -> Self {
        match fault {
            OverlayFault::Refused(refusal) => LoadFault::Refused(refusal),
            OverlayFault::Pattern => LoadFault::Pattern,
            OverlayFault::Memory => LoadFault::Memory,
        }
    }
}

impl From<SearchFault> for LoadFault {
    ghost use Rattle.arz_bundle.specs.FileTree.{search_fault};

    ghost from_gives = { λ f e. e ≡ search_fault f };

    fn from(fault: SearchFault) -> Self {
        match fault {
            SearchFault::TooBig => LoadFault::Pattern,
            SearchFault::Memory => LoadFault::Memory,
        }
    }
}
