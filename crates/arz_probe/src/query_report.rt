//! What is printed of a query over a file's bytes, and of an I-Regexp.

ghost use Rattle.std.specs.Prelude.{◌≡◌, ◌++◌, ◌∷◌, [], ◌≢◌, List, IfOk, OnOk, map};
ghost use Rattle.arz_query.specs.Answers.{Spells};
ghost use Rattle.arz_query.specs.declared.query.Segment.{Segment};
ghost use Rattle.arz_path.specs.Selected.{places as selected_places};
ghost use Rattle.arz_path.specs.Results.{tokens_in, setting_of};
ghost use Rattle.arz_probe.specs.Reports.{refused as refusal};
ghost use Rattle.arz_probe.specs.Selections.{fault_line, place_lines, places_form, selection_form, pattern_form, iregexp_form, PathReport, Prints};

use crate::paths::push_path;
use crate::report::{Report, refused, refused_at, tree_of_text};
use arz_json::{Bytes, Json};
use arz_path::{Place, SelectFault, select};
use arz_query::{PathFault, Query};
use arz_rx::{Patterns, i_regexp};
use std::alloc::{AllocError, Global};

/// The places that a query selects in a file's JSON text, as normalized paths (RFC 9535, section 2.7),
/// each a line. Or, with status 3, `NotJson`, the fault of the query with its place, or `TooWide`; or,
/// with status 15, `Pattern` where a pattern is too big.
pub fn path_report<P: Patterns>(
    alloc: Global,
    bytes: &[u8],
    query: &str,
    patterns: &mut P,
) -> Result<Report, AllocError>
    ensures { IfOk result (PathReport bytes.now query.now (P.patterns patterns.old) (P.patterns patterns.new)) }
{
    let Some(root) = tree_of_text(alloc, bytes)? else {
        return refused(alloc, "NotJson");
    };
    match Query::read(alloc, query) {
        Ok(query) => selection(alloc, &query, &root, patterns),
        Err(fault) => fault_report(alloc, fault),
    }
}

/// The pattern that an I-Regexp is searched for by (RFC 9485, section 5), for whole texts or for any
/// part of them, as a line.
pub fn iregexp_report(alloc: Global, text: &str, whole: bool) -> Result<Report, AllocError>
    ensures { IfOk result (λ r. r ≡ iregexp_form whole text.now) }
{
    let mut text = i_regexp(alloc, text, whole)?.into_bytes();
    text.push(b'\n')?;
    let text = Bytes::from_std(text);
    Ok(Report { text, status: 0 })
}

fn selection<P: Patterns>(
    alloc: Global,
    query: &Query,
    root: &Json,
    patterns: &mut P,
) -> Result<Report, AllocError>
    ensures { (vs : List Segment) → Spells query.now vs
        → IfOk result (Prints (selection_form (selected_places vs (setting_of (P.patterns patterns.old) root.now))) (P.patterns patterns.old) (P.patterns patterns.new)) }
{
    match select(alloc, query, root, patterns) {
        Ok(places) => listed(alloc, places.as_slice()),
        Err(SelectFault::TooWide) => refused(alloc, "TooWide"),
        Err(SelectFault::Pattern) => pattern_report(alloc),
        Err(SelectFault::Memory) => Err(AllocError),
    }
}

fn listed(alloc: Global, places: &[Place]) -> Result<Report, AllocError>
    ensures { IfOk result (λ r. r ≡ places_form (map tokens_in places.now)) }
{
    let mut text = Vec::new(alloc);
    for place in places {
        push_line(&mut text, place)?;
    }
    let text = Bytes::from_std(text);
    Ok(Report { text, status: 0 })
}

fn push_line(text: &mut Vec<u8>, place: &Place) -> Result<(), AllocError>
    ensures { OnOk result (text.new.items ≡ text.old.items ++ place_lines (place.now.tokens ∷ [])) }
{
    push_path(text, place)?;
    text.push(b'\n')?;
    Ok(())
}

// The line of a fault of a query. Want of memory is told as such.
fn fault_report(alloc: Global, fault: PathFault) -> Result<Report, AllocError>
    ensures { IfOk result (λ r. (r ≡ refusal (fault_line fault)) × (fault ≢ PathFault.Memory)) }
{
    match fault {
        PathFault::Syntax => refused(alloc, "Syntax"),
        PathFault::IllTyped(at) => refused_at(alloc, "IllTyped", at),
        PathFault::Fraction(at) => refused_at(alloc, "Fraction", at),
        PathFault::IntegerRange(at) => refused_at(alloc, "IntegerRange", at),
        PathFault::TooNested(at) => refused_at(alloc, "TooNested", at),
        PathFault::Memory => Err(AllocError),
    }
}

/// What is printed where a pattern is too big, and status 15.
pub fn pattern_report(alloc: Global) -> Result<Report, AllocError>
    ensures { IfOk result (λ r. r ≡ pattern_form) }
{
    let text = Bytes::from_std(Vec::from_slice(alloc, b"Pattern\n")?);
    Ok(Report { text, status: 15 })
}
