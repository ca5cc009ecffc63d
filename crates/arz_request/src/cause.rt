// Why there is no request.
ghost use Rattle.std.specs.Prelude.{◌≡◌};
ghost use Rattle.arz_request.specs.Causes.{fault_of_filling, fault_of_style, fault_of_compact};
ghost use Rattle.arz_request.specs.declared.cause.BuildFault.TheVariants.{Memory};

use arz_expr::FillFault;
use arz_json::CompactFault;
use arz_style::StyleFault;
use std::alloc::{AllocError, AllocFailed};
use thiserror::Error;

/// Why an execution can't go on.
#[derive(Clone, Copy, Debug, PartialEq, Eq)]
pub enum Cause {
    /// An expression has no value.
    Unresolved,
    /// A number with a fraction or an exponent, or past 64 bits, would have to be written.
    FractionUsed,
    /// A filled value, or a payload after a replacement, would nest too deep.
    TooNested,
    /// A value can't be written in the style of its parameter, or as its media type.
    NotSerializable,
    /// The value of a header line holds a control character, or begins or ends with a blank.
    BadHeaderValue,
    /// A replacement's target names nothing in the payload, or the payload's text is no JSON.
    PayloadTarget,
    /// A request would have too many bytes.
    RequestTooLarge,
    /// A query of a criterion would select too many places.
    TooWide,
}

/// Why a step has no request.
#[derive(Clone, Copy, Debug, PartialEq, Eq, Error)]
pub enum BuildFault {
    /// The execution can't go on.
    #[error("the step has no request")]
    Stuck(Cause),
    /// Memory ran out.
    #[error("out of memory")]
    Memory,
}

impl From<AllocError> for BuildFault {
    ghost from_gives = { λ _ e. e ≡ Memory };

    fn from(_e: AllocError) -> BuildFault {
        BuildFault::Memory
    }
}

impl<T: Drop> From<AllocFailed<T>> for BuildFault {
    ghost from_gives = { λ _ e. e ≡ Memory };

    fn from(_e: AllocFailed<T>) -> BuildFault {
        BuildFault::Memory
    }
}

impl From<FillFault> for BuildFault {
    ghost from_gives = { λ f e. e ≡ fault_of_filling f };

    fn from(fault: FillFault) -> BuildFault {
        match fault {
            FillFault::Unresolved => BuildFault::Stuck(Cause::Unresolved),
            FillFault::FractionUsed => BuildFault::Stuck(Cause::FractionUsed),
            FillFault::TooNested => BuildFault::Stuck(Cause::TooNested),
            FillFault::Memory => BuildFault::Memory,
        }
    }
}

impl From<StyleFault> for BuildFault {
    ghost from_gives = { λ f e. e ≡ fault_of_style f };

    fn from(fault: StyleFault) -> BuildFault {
        match fault {
            StyleFault::NotSerializable => BuildFault::Stuck(Cause::NotSerializable),
            StyleFault::FractionUsed => BuildFault::Stuck(Cause::FractionUsed),
            StyleFault::Memory => BuildFault::Memory,
        }
    }
}

impl From<CompactFault> for BuildFault {
    ghost from_gives = { λ f e. e ≡ fault_of_compact f };

    fn from(fault: CompactFault) -> BuildFault {
        match fault {
            CompactFault::FractionUsed => BuildFault::Stuck(Cause::FractionUsed),
            CompactFault::Memory => BuildFault::Memory,
        }
    }
}
