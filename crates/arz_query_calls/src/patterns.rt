// I-Regexps, and tables of patterns.
use arz_cases::{Case, CaseFault, Outcome, flag_word};
use arz_rx::{Patterns, SearchFault, TablePatterns, i_regexp};
use serde_json::Value;
use std::alloc::Global;

/// The pattern that `text` is mapped to, for whole texts where `whole` is set.
pub fn iregexp(alloc: Global, case: &Case<'_>) -> Result<Outcome, CaseFault> {
    let text = case.text(alloc, "text")?;
    let pattern = i_regexp(alloc, text.as_str(), case.flag("whole"))?;
    Ok(Outcome::text(pattern))
}

/// The table of `patterns`, whose rows are lists of a pattern, a text and whether it is found. Of the
/// searches those in `failing_searches` fail.
pub fn patterns_of(alloc: Global, case: &Case<'_>) -> Result<TablePatterns, CaseFault> {
    let failing = case.numbers(alloc, "failing_searches")?;
    let mut table = TablePatterns::new(alloc, failing);
    for row in case.items("patterns") {
        let (pattern, text) = pair_of(row).ok_or(CaseFault::Malformed("patterns"))?;
        let found = row.get(2usize).and_then(Value::as_bool);
        let found = found.ok_or(CaseFault::Malformed("patterns"))?;
        table.add(pattern, text, found)?;
    }
    Ok(table)
}

fn pair_of(row: &Value) -> Option<(&str, &str)> {
    let pattern = row.get(0usize)?.as_str()?;
    let text = row.get(1usize)?.as_str()?;
    Some((pattern, text))
}

/// Searches for the pairs of `searches`, one after another; each takes a line.
pub fn search(alloc: Global, case: &Case<'_>) -> Result<Outcome, CaseFault> {
    let mut table = patterns_of(alloc, case)?;
    let mut lines = String::new(alloc);
    for row in case.items("searches") {
        let (pattern, text) = pair_of(row).ok_or(CaseFault::Malformed("searches"))?;
        lines.push_str(match search_in(&mut table, pattern, text) {
            Ok(Some(found)) => flag_word(found),
            Ok(None) => "no reading",
            Err(SearchFault::TooBig) => "TooBig",
            Err(SearchFault::Memory) => return Err(CaseFault::Memory),
        })?;
        lines.push_str("\n")?;
    }
    Ok(Outcome::text(lines))
}

fn search_in<P: Patterns>(
    patterns: &mut P,
    pattern: &str,
    text: &str,
) -> Result<Option<bool>, SearchFault> {
    patterns.search(pattern, text)
}
