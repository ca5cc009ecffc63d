// Patterns that a table tells.
ghost use Rattle.std.specs.Prelude.{◌≡◌, ◌≤◌, ◌==◌, OnOk, OnErr, IfOk, IfErr, IsErrOf, true, false};
ghost use Rattle.std.specs.List.{list_any};
ghost use Rattle.arz_rx.specs.Patterns.{AnswersAs, Rose};
ghost use Rattle.arz_rx.specs.Table.{AddsText, SameRow};

use crate::{Patterns, SearchFault};
use std::alloc::{AllocError, Global};
use std::collections::BTreeMap;

/// The texts of one pattern, and whether the search finds a match in each.
type Row = BTreeMap<String, bool>;

/// A table of patterns and texts, of which chosen searches fail. A pattern and a text that aren't in it have no reading.
#[derive(Drop)]
pub struct TablePatterns {
    alloc: Global,
    rows: BTreeMap<String, Row>,
    failing: Vec<u32>,
    calls: u64,
    too_big: u64,
}

impl TablePatterns {
    ghost use Rattle.arz_rx.specs.Table.{IsNew, Adds, SameTable};

    /// An empty table of which the searches with these numbers fail. The first search has the number
    /// 1.
    pub fn new(alloc: Global, failing: Vec<u32>) -> TablePatterns
        ensures { IsNew result failing.items }
    {
        TablePatterns {
            alloc,
            rows: BTreeMap::new(alloc),
            failing,
            calls: 0,
            too_big: 0,
        }
    }

    /// Adds whether the pattern is found in the text. A pair that was added before keeps its first
    /// answer.
    pub fn add(&mut self, pattern: &str, text: &str, found: bool) -> Result<(), AllocError>
        ensures adds { OnOk result (Adds self.old self.new pattern.now text.now found) }
        ensures keeps { OnErr result (SameTable self.old self.new) }
    {
        let alloc = self.alloc;
        match self.rows.get_mut(pattern) {
            Some(row) => add_text(alloc, row, text, found),
            None => {
                let mut row = BTreeMap::new(alloc);
                add_text(alloc, &mut row, text, found)?;
                self.rows.insert(String::from_str(alloc, pattern)?, row)?;
                Ok(())
            }
        }
    }
}

fn add_text(alloc: Global, row: &mut Row, text: &str, found: bool) -> Result<(), AllocError>
    ensures adds { OnOk result (AddsText row.old row.new text.now found) }
    ensures keeps { OnErr result (SameRow row.old row.new) }
{
    if row.contains_key(text) {
        return Ok(());
    }
    row.insert(String::from_str(alloc, text)?, found)?;
    Ok(())
}

fn is_due(failing: &[u32], call: u64) -> bool
    ensures { result ≡ list_any (λ n. n == call) failing.now }
{
    failing.iter().any(|n| u64::from(*n) == call)
}

impl Patterns for TablePatterns {
    ghost use Rattle.std.specs.declared.option.Option.TheVariants.{Some};
    ghost use Rattle.arz_rx.specs.Table.{found, is_due as is_due_next, next, Called};

    ghost patterns = { λ m. record { told = λ pattern text. Some (found m pattern text); too_big = m.too_big } };

    fn search(&mut self, pattern: &str, text: &str) -> Result<Option<bool>, SearchFault>
        ensures answer { IfOk result (λ found. AnswersAs ((⟦<TablePatterns as Patterns>⟧.patterns self.old).told pattern.now text.now) found) }
        ensures told { (⟦<TablePatterns as Patterns>⟧.patterns self.new).told ≡ (⟦<TablePatterns as Patterns>⟧.patterns self.old).told }
        ensures cause { IsErrOf result SearchFault.TooBig → Rose (⟦<TablePatterns as Patterns>⟧.patterns self.old).too_big (⟦<TablePatterns as Patterns>⟧.patterns self.new).too_big }
        ensures count { (⟦<TablePatterns as Patterns>⟧.patterns self.old).too_big ≤ (⟦<TablePatterns as Patterns>⟧.patterns self.new).too_big }

        // It fails at the searches that were chosen, with one fault, and nowhere else.
        ensures succeeds { OnOk result (is_due_next self.old ≡ false) }
        ensures fails { OnErr result (is_due_next self.old ≡ true) }
        ensures fault { IfErr result (λ e. e ≡ SearchFault.TooBig) }

        // What stands after each answer.
        ensures ok { OnOk result (Called self.old self.new self.old.too_big) }
        ensures failed { OnErr result (Called self.old self.new (next self.old.too_big)) }
    {
        self.calls = self.calls.saturating_add(1);
        if is_due(&self.failing, self.calls) {
            self.too_big = self.too_big.saturating_add(1);
            return Err(SearchFault::TooBig);
        }
        let Some(row) = self.rows.get(pattern) else {
            return Ok(None);
        };
        Ok(row.get(text).copied())
    }
}
