// Patterns that the engine of `regex` searches for.
ghost use Rattle.std.specs.Prelude.{◌≡◌, ◌≤◌, IfOk, IsErrOf};
ghost use Rattle.arz_rx.specs.Patterns.{AnswersAs, Rose};
ghost use Rattle.arz_real.specs.Meaning.{meaning, Finds};

use crate::kept::Kept;
use arz_rx::{Patterns, SearchFault};
use std::alloc::Global;

/// Searches with `regex`. What it tells of a pattern and a text is what the definitions of `regex` say,
/// where they read the pattern within their nesting. A pattern that isn't well formed, or that nests
/// deeper, has no reading; one that is refused for another reason than memory is too big. Each pattern
/// is compiled once, and kept as long as the object, where there is memory for it.
#[derive(Drop)]
pub struct RegexPatterns {
    alloc: Global,
    kept: Kept,
    too_big: u64,
}

impl RegexPatterns {
    /// An engine that keeps no pattern yet, and has refused none.
    pub fn new(alloc: Global) -> RegexPatterns
        ensures { result.too_big ≡ 0 }
    {
        RegexPatterns {
            alloc,
            kept: Kept::new(alloc),
            too_big: 0,
        }
    }
}

impl Patterns for RegexPatterns {
    ghost patterns = { λ m. record { told = meaning; too_big = m.too_big } };

    fn search(&mut self, pattern: &str, text: &str) -> Result<Option<bool>, SearchFault>
        ensures answer { IfOk result (λ found. AnswersAs ((⟦<RegexPatterns as Patterns>⟧.patterns self.old).told pattern.now text.now) found) }
        ensures told { (⟦<RegexPatterns as Patterns>⟧.patterns self.new).told ≡ (⟦<RegexPatterns as Patterns>⟧.patterns self.old).told }
        ensures cause { IsErrOf result SearchFault.TooBig → Rose (⟦<RegexPatterns as Patterns>⟧.patterns self.old).too_big (⟦<RegexPatterns as Patterns>⟧.patterns self.new).too_big }
        ensures count { (⟦<RegexPatterns as Patterns>⟧.patterns self.old).too_big ≤ (⟦<RegexPatterns as Patterns>⟧.patterns self.new).too_big }

        // It has no reading exactly where nothing is told of the pattern.
        ensures finds { Finds pattern.now text.now result }
    {
        let answer = self.kept.search(self.alloc, pattern, text);
        if matches!(answer, Err(SearchFault::TooBig)) {
            self.too_big = self.too_big.saturating_add(1);
        }
        answer
    }
}
