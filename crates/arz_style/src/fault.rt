// Why a value can't be written.
ghost use Rattle.std.specs.Prelude.{◌≡◌};

use std::alloc::{AllocError, AllocFailed};
use thiserror::Error;

/// Why a value can't be written in a style or as a form.
#[derive(Clone, Copy, Debug, PartialEq, Eq, Error)]
pub enum StyleFault {
    /// The style has no text for a value of this kind, or a list or an object stands where a text is wanted.
    #[error("the value has no text in this style")]
    NotSerializable,
    /// A number would have to be written whose spelling is not known.
    #[error("a number with a fraction or exponent has no text")]
    FractionUsed,
    /// Memory ran out.
    #[error("out of memory")]
    Memory,
}

impl From<AllocError> for StyleFault {
    ghost use Rattle.arz_style.specs.declared.fault.StyleFault.TheVariants.{Memory};

    ghost from_gives = { λ _ e. e ≡ Memory };

    fn from(_: AllocError) -> Self {
        StyleFault::Memory
    }
}

impl<T: Drop> From<AllocFailed<T>> for StyleFault {
    ghost use Rattle.arz_style.specs.declared.fault.StyleFault.TheVariants.{Memory};

    ghost from_gives = { λ _ e. e ≡ Memory };

    fn from(_: AllocFailed<T>) -> Self {
        StyleFault::Memory
    }
}
