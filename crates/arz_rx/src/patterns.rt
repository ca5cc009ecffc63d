// The search of patterns in texts.
ghost use Rattle.std.specs.Prelude.{◌≡◌, ◌≤◌, IfOk, IsErrOf};
ghost use Rattle.arz_rx.specs.Patterns.{PatternsView, AnswersAs, Rose};
ghost use Rattle.arz_rx.specs.declared.patterns.SearchFault.TheVariants.{Memory};

use std::alloc::AllocError;
use thiserror::Error;

/// Why a search gave no answer.
#[derive(Clone, Copy, Debug, PartialEq, Eq, Error)]
pub enum SearchFault {
    /// The pattern was too big to be searched for. The count of such patterns has risen.
    #[error("the pattern is too big")]
    TooBig,
    /// There was not enough memory.
    #[error("out of memory")]
    Memory,
}

impl From<AllocError> for SearchFault {
    ghost from_gives = { λ _ e. e ≡ Memory };

    fn from(_: AllocError) -> Self {
        SearchFault::Memory
    }
}

/// What searches for regular expressions in texts. Each pattern and text has a meaning that no call
/// changes, and that may be told or not.
pub trait Patterns {
    /// What is told of each pattern and text, and how many patterns were too big.
    ghost patterns: { Self → PatternsView };

    /// Searches for a match of the pattern in the text, anywhere where the pattern isn't anchored.
    /// `Some` says whether there is one, and `None` that the pattern has no reading.
    fn search(&mut self, pattern: &str, text: &str) -> Result<Option<bool>, SearchFault>
        ensures answer { IfOk result (λ found. AnswersAs ((patterns self.old).told pattern.now text.now) found) }
        ensures told { (patterns self.new).told ≡ (patterns self.old).told }
        ensures cause { IsErrOf result SearchFault.TooBig → Rose (patterns self.old).too_big (patterns self.new).too_big }
        ensures count { (patterns self.old).too_big ≤ (patterns self.new).too_big };
}
