// Overlays.
use crate::patterns::patterns_of;
use arz_cases::{Case, CaseFault, Outcome, text_of};
use arz_overlay::{Overlay, OverlayFault, apply};
use std::alloc::Global;

/// The compact text of what the document `overlay`, with the label `overlay 0`, makes of `document`; or of its
/// refusal the rule, the label and the place; or `Pattern`.
pub fn overlay(alloc: Global, case: &Case<'_>) -> Result<Outcome, CaseFault> {
    let described = case.json(alloc, "overlay")?;
    let document = case.json(alloc, "document")?;
    let overlay = match Overlay::read(alloc, &described, "overlay 0") {
        Ok(overlay) => overlay,
        Err(fault) => return told(alloc, fault),
    };
    let mut patterns = patterns_of(alloc, case)?;
    match apply(alloc, &overlay, &document, &mut patterns) {
        Ok(tree) => Ok(Outcome::text(text_of(alloc, &tree)?)),
        Err(fault) => told(alloc, fault),
    }
}

fn told(alloc: Global, fault: OverlayFault) -> Result<Outcome, CaseFault> {
    match fault {
        OverlayFault::Refused(refusal) => Ok(Outcome::text(format!(in alloc;
            "{} {}#{}",
            refusal.rule,
            refusal.label.as_str(),
            refusal.pointer.as_str()
        )?)),
        OverlayFault::Pattern => Ok(Outcome::words(alloc, "Pattern")?),
        OverlayFault::Memory => Err(CaseFault::Memory),
    }
}
