// Failures as they are told.
ghost use Rattle.std.specs.Prelude.{◌≡◌, IfOk, Result};
ghost use Rattle.arz_json.specs.Answer.{Gives, Fails};
ghost use Rattle.arz_json.specs.declared.tree.Refusal.{Refusal};
ghost use Rattle.arz_rules.specs.Phases.{cause, refusal, failure_or, told_or};
ghost use Rattle.arz_rules.specs.Place.{tokens_in};
ghost use Rattle.arz_rules.specs.declared.phases.RuleFault.TheVariants.{Memory};

use crate::pointer::pointer_text;
use arz_json::{Place, Refusal, Text};
use std::alloc::{AllocError, Global};
use thiserror::Error;

/// Why a document was not taken.
#[derive(Debug, Drop, Error)]
pub enum RuleFault {
    /// It fails a rule, which is the first one, at the least place.
    #[error("a rule fails")]
    Refused(Refusal),
    /// There was not enough memory.
    #[error("out of memory")]
    Memory,
}

impl From<AllocError> for RuleFault {
    ghost from_gives = { λ _ e. e ≡ Memory };

    fn from(_: AllocError) -> RuleFault {
        RuleFault::Memory
    }
}

/// A rule's failure as it is told: its number, the label of the document, and the place as a JSON
/// Pointer (RFC 6901).
pub fn refuse(alloc: Global, rule: u8, label: &str, place: &Place) -> RuleFault
    ensures { Fails (cause result) (let meant : Result Unit Refusal = Err (refusal label.now (rule, place.now.tokens)) in meant) }
{
    match refusal_of(alloc, rule, label, place) {
        Ok(refusal) => RuleFault::Refused(refusal),
        Err(_) => RuleFault::Memory,
    }
}

fn refusal_of(alloc: Global, rule: u8, label: &str, place: &Place) -> Result<Refusal, AllocError>
    ensures { IfOk result (λ r. r ≡ refusal label.now (rule, place.now.tokens)) }
{
    let pointer = pointer_text(alloc, place)?;
    let label = Text::from_str(alloc, label)?;
    Ok(Refusal {
        rule,
        label,
        pointer,
    })
}

/// Refuses the document where the rule's place is there. A phase is a row of such calls, one for each
/// rule, by their numbers.
pub fn refuse_if(
    alloc: Global,
    rule: u8,
    label: &str,
    found: Option<Place>,
) -> Result<(), RuleFault>
    ensures { Gives (λ u. u) cause result (told_or label.now (failure_or rule (tokens_in found) None) (Ok tt)) }
{
    match found {
        Some(place) => Err(refuse(alloc, rule, label, &place)),
        None => Ok(()),
    }
}
