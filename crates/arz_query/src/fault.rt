ghost use Rattle.std.specs.Prelude.{◌≡◌};
ghost use Rattle.arz_query.specs.declared.fault.PathFault.TheVariants.{Memory};

use std::alloc::AllocError;
use thiserror::Error;

/// Why a text gives no query. Each place is in bytes from the text's start.
#[derive(Clone, Copy, Debug, PartialEq, Eq, Error)]
pub enum PathFault {
    /// The text isn't in the grammar of RFC 9535, in which here any query may be compared.
    #[error("no query of JSONPath")]
    Syntax,
    /// A function is unknown, has a wrong number or kind of arguments, or stands where its result
    /// can't (at its name); or a query that isn't singular is compared (at the query).
    #[error("ill-typed at {0}")]
    IllTyped(u64),
    /// A number has a fraction or an exponent.
    #[error("a fraction or an exponent at {0}")]
    Fraction(u64),
    /// An index or a part of a slice is past 2^53 - 1, or another number past 64 bits.
    #[error("a number past the range at {0}")]
    IntegerRange(u64),
    /// A `[` or `(` makes 65 open.
    #[error("nested too deep at {0}")]
    TooNested(u64),
    /// Memory ran out.
    #[error("out of memory")]
    Memory,
}

impl From<AllocError> for PathFault {
    ghost from_gives = { λ _ e. e ≡ Memory };

    fn from(_: AllocError) -> PathFault {
        PathFault::Memory
    }
}
