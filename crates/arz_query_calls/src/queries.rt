// Queries of JSONPath.
use crate::paths::path_of;
use crate::patterns::patterns_of;
use arz_cases::{Case, CaseFault, Outcome, flag_word};
use arz_json::{Json, Many, same};
use arz_path::{Place, SelectFault, any as selects_any, found as node_at, select};
use arz_query::{PathFault, Query};
use std::alloc::{AllocError, Global};

const OPERATORS: [&str; 6] = ["==", "!=", "<", "<=", ">", ">="];

/// What a query gives, or its fault in words.
type Told<T> = Result<T, String>;

/// The normalized paths of the places that `query` selects in `document`, each a line.
pub fn path(alloc: Global, case: &Case<'_>) -> Result<Outcome, CaseFault> {
    let document = case.json(alloc, "document")?;
    match selected(alloc, case, &document)? {
        Ok(places) => Ok(Outcome::text(listed(alloc, places.as_slice())?)),
        Err(fault) => Ok(Outcome::text(fault)),
    }
}

fn listed(alloc: Global, places: &[Place]) -> Result<String, AllocError> {
    let mut lines = String::new(alloc);
    for place in places {
        lines.push_str(path_of(alloc, place)?.as_str())?;
        lines.push_str("\n")?;
    }
    Ok(lines)
}

/// How many places `query` selects in `document`.
pub fn count(alloc: Global, case: &Case<'_>) -> Result<Outcome, CaseFault> {
    let document = case.json(alloc, "document")?;
    match selected(alloc, case, &document)? {
        Ok(places) => Ok(Outcome::text(format!(in alloc; "{}", places.len())?)),
        Err(fault) => Ok(Outcome::text(fault)),
    }
}

/// Whether `query` selects anything in `document`.
pub fn any(alloc: Global, case: &Case<'_>) -> Result<Outcome, CaseFault> {
    let document = case.json(alloc, "document")?;
    let query = match query_of(alloc, case)? {
        Ok(query) => query,
        Err(fault) => return Ok(Outcome::text(fault)),
    };
    let mut patterns = patterns_of(alloc, case)?;
    match selects_any(alloc, &query, &document, &mut patterns) {
        Ok(any) => Ok(Outcome::words(alloc, flag_word(any))?),
        Err(fault) => Ok(Outcome::text(select_fault(alloc, fault)?)),
    }
}

/// The operators that hold between `left` and `right`, which stand in a filter over `document`.
pub fn compare(alloc: Global, case: &Case<'_>) -> Result<Outcome, CaseFault> {
    let document = case.json(alloc, "document")?;
    let left = case.text(alloc, "left")?;
    let right = case.text(alloc, "right")?;
    let mut holding = String::new(alloc);
    for operator in OPERATORS {
        let text = format!(in alloc; "$[?{left} {operator} {right}]")?;
        if holds(alloc, case, text.as_str(), &document)? {
            holding.push_str(operator)?;
            holding.push_str(" ")?;
        }
    }
    Ok(Outcome::text(holding))
}

fn holds(alloc: Global, case: &Case<'_>, text: &str, document: &Json) -> Result<bool, CaseFault> {
    let mut patterns = patterns_of(alloc, case)?;
    match Query::read(alloc, text) {
        Ok(query) => selects_any(alloc, &query, document, &mut patterns).map_err(
            |_| CaseFault::Malformed("a comparison that is refused"),
        ),
        Err(_) => Err(CaseFault::Malformed("a comparison that is no query")),
    }
}

/// For each place that `query` selects in `document`, whether the node there is the tree `value`, and
/// whether `other` has a node there.
pub fn found(alloc: Global, case: &Case<'_>) -> Result<Outcome, CaseFault> {
    let document = case.json(alloc, "document")?;
    let value = case.json(alloc, "value")?;
    let other = case.json(alloc, "other")?;
    let places = match selected(alloc, case, &document)? {
        Ok(places) => places,
        Err(fault) => return Ok(Outcome::text(fault)),
    };
    let mut lines = String::new(alloc);
    for place in places.as_slice() {
        let here = node_at(&document, place).is_some_and(|node| same(node, &value));
        let there = node_at(&other, place).is_some();
        let path = path_of(alloc, place)?;
        let line = format!(in alloc; "{path} {} {}\n", flag_word(here), flag_word(there))?;
        lines.push_str(line.as_str())?;
    }
    Ok(Outcome::text(lines))
}

fn selected(
    alloc: Global,
    case: &Case<'_>,
    document: &Json,
) -> Result<Told<Many<Place>>, CaseFault> {
    let query = match query_of(alloc, case)? {
        Ok(query) => query,
        Err(fault) => return Ok(Err(fault)),
    };
    let mut patterns = patterns_of(alloc, case)?;
    match select(alloc, &query, document, &mut patterns) {
        Ok(places) => Ok(Ok(places)),
        Err(fault) => Ok(Err(select_fault(alloc, fault)?)),
    }
}

fn query_of(alloc: Global, case: &Case<'_>) -> Result<Told<Query>, CaseFault> {
    let text = case.text(alloc, "query")?;
    match Query::read(alloc, text.as_str()) {
        Ok(query) => Ok(Ok(query)),
        Err(fault) => Ok(Err(query_fault(alloc, fault)?)),
    }
}

fn query_fault(alloc: Global, fault: PathFault) -> Result<String, CaseFault> {
    Ok(match fault {
        PathFault::Syntax => String::from_str(alloc, "Syntax")?,
        PathFault::IllTyped(at) => format!(in alloc; "IllTyped {at}")?,
        PathFault::Fraction(at) => format!(in alloc; "Fraction {at}")?,
        PathFault::IntegerRange(at) => format!(in alloc; "IntegerRange {at}")?,
        PathFault::TooNested(at) => format!(in alloc; "TooNested {at}")?,
        PathFault::Memory => return Err(CaseFault::Memory),
    })
}

fn select_fault(alloc: Global, fault: SelectFault) -> Result<String, CaseFault> {
    match fault {
        SelectFault::TooWide => Ok(String::from_str(alloc, "TooWide")?),
        SelectFault::Pattern => Ok(String::from_str(alloc, "Pattern")?),
        SelectFault::Memory => Err(CaseFault::Memory),
    }
}
