ghost use Rattle.std.specs.Prelude.{◌≡◌};
ghost use Rattle.arz_cond.specs.declared.fault.TestFault.TheVariants.{Memory};

use arz_query::PathFault;
use std::alloc::AllocError;
use thiserror::Error;

/// Why the texts of a criterion give none (Arazzo 1.0.1, section 4.6.11).
#[derive(Clone, Copy, Debug, PartialEq, Eq, Error)]
pub enum TestFault {
    /// A simple condition has no reading, but has one where a number may have a fraction or an exponent.
    #[error("a fraction or an exponent")]
    Fraction,
    /// The context isn't a runtime expression (4.7).
    #[error("the context is no expression")]
    BadExpression,
    /// A simple condition has no reading, also where a number may have a fraction or an exponent.
    #[error("no condition")]
    BadCondition,
    /// The condition is no query of JSONPath (RFC 9535), and why.
    #[error("no path: {0}")]
    BadPath(PathFault),
    /// Memory ran out.
    #[error("out of memory")]
    Memory,
}

impl From<AllocError> for TestFault {
    ghost from_gives = { λ _ e. e ≡ Memory };

    fn from(_: AllocError) -> TestFault {
        TestFault::Memory
    }
}
