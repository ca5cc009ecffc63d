//! What is printed of an overlay over a file.

ghost use Rattle.std.specs.Prelude.{◌≡◌, IfOk};
ghost use Rattle.arz_json.specs.Tree.{IsWellFormed};
ghost use Rattle.arz_overlay.specs.Applied.{Applies};
ghost use Rattle.arz_probe.specs.Overlays.{tree_form, refusal_form, applied, PrintsOverlaid, OverlayReport};
ghost use Rattle.arz_probe.specs.Reports.{good};

use crate::query_report::pattern_report;
use crate::report::{Report, refused, tree_of_text};
use arz_json::{Bytes, CompactFault, Json, Refusal, compact};
use arz_overlay::{Overlay, OverlayFault, apply};
use arz_rx::Patterns;
use std::alloc::{AllocError, Global};

/// What an overlay (Overlay 1.0.0) makes of a file, both as JSON texts, as a line of compact JSON text. Or,
/// with status 3, `NotJson`, the rule and the place of a refusal, or `FractionUsed` where the result has no
/// text; or, with status 15, `Pattern` where a pattern is too big.
pub fn overlay_report<P: Patterns>(
    alloc: Global,
    overlay: &[u8],
    bytes: &[u8],
    patterns: &mut P,
) -> Result<Report, AllocError>
    ensures { IfOk result (OverlayReport overlay.now bytes.now (P.patterns patterns.old) (P.patterns patterns.new)) }
{
    let Some(document) = tree_of_text(alloc, overlay)? else {
        return refused(alloc, "NotJson");
    };
    let Some(root) = tree_of_text(alloc, bytes)? else {
        return refused(alloc, "NotJson");
    };
    overlaid_report(alloc, &document, &root, patterns)
}

fn overlaid_report<P: Patterns>(
    alloc: Global,
    document: &Json,
    root: &Json,
    patterns: &mut P,
) -> Result<Report, AllocError>
    requires document { IsWellFormed document.now }
    requires root { IsWellFormed root.now }
    ensures { IfOk result (PrintsOverlaid (applied (P.patterns patterns.old).told document.now root.now) (P.patterns patterns.old) (P.patterns patterns.new)) }
{
    match overlaid(alloc, document, root, patterns) {
        Ok(tree) => tree_report(alloc, &tree),
        Err(OverlayFault::Refused(refusal)) => refusal_report(alloc, &refusal),
        Err(OverlayFault::Pattern) => pattern_report(alloc),
        Err(OverlayFault::Memory) => Err(AllocError),
    }
}

fn overlaid<P: Patterns>(
    alloc: Global,
    document: &Json,
    root: &Json,
    patterns: &mut P,
) -> Result<Json, OverlayFault>
    requires document { IsWellFormed document.now }
    requires root { IsWellFormed root.now }
    ensures applies { Applies (λ j. j) result (applied (P.patterns patterns.old).told document.now root.now) (P.patterns patterns.old) (P.patterns patterns.new) }
    ensures well_formed { IfOk result IsWellFormed }
{
    match Overlay::read(alloc, document, "overlay") {
        Ok(overlay) => apply(alloc, &overlay, root, patterns),
        Err(fault) => Err(fault),
    }
}

fn tree_report(alloc: Global, tree: &Json) -> Result<Report, AllocError>
    requires { IsWellFormed tree.now }
    ensures { IfOk result (λ r. r ≡ tree_form tree.now) }
{
    match compact(alloc, tree) {
        Ok(text) => line(text),
        Err(CompactFault::FractionUsed) => refused(alloc, "FractionUsed"),
        Err(CompactFault::Memory) => Err(AllocError),
    }
}

fn line(text: Bytes) -> Result<Report, AllocError>
    ensures { IfOk result (λ r. r ≡ good text) }
{
    let mut text = text.into_std();
    text.push(b'\n')?;
    let text = Bytes::from_std(text);
    Ok(Report { text, status: 0 })
}

fn refusal_report(alloc: Global, refusal: &Refusal) -> Result<Report, AllocError>
    ensures { IfOk result (λ r. r ≡ refusal_form refusal.now) }
{
    let mut digits = itoa::Buffer::new();
    let mut text = Vec::new(alloc);
    text.extend_from_slice(digits.format(refusal.rule).as_bytes())?;
    text.push(b' ')?;
    text.extend_from_slice(refusal.pointer.as_str().as_bytes())?;
    text.push(b'\n')?;
    let text = Bytes::from_std(text);
    Ok(Report { text, status: 3 })
}
