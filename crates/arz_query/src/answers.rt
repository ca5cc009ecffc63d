// What the text of a query is read as.
ghost use Rattle.std.specs.Prelude.{◌≡◌};
ghost use Rattle.arz_query.specs.Words.{Gives, as_read};
ghost use Rattle.arz_query.specs.Reading.{reading};
ghost use Rattle.arz_query.specs.Answers.{fault_of, answer, Answers};

use crate::fault::PathFault;
use crate::nesting::too_nested;
use crate::pieces::{Flaw, FlawKind, Part, ReadFault};
use crate::query::Segment;
use crate::reading::segments;
use crate::words::after;
use sqlite_items::Items;
use std::alloc::Global;

#[tactic(auto, unfolding(crate::specs::Reading::reading))]
fn whole(alloc: Global, text: &[u8]) -> Result<Part<'_, Items<Segment>>, ReadFault>
    ensures { Gives as_read result (reading text.now) }
{
    let Some(rest) = after(text, b'$') else {
        return Err(ReadFault::Syntax);
    };
    // Each expression takes a byte of the text, so its length is room enough. How deep calls nest is bounded
    // by `MAX_OPEN`, which was counted before.
    let all = segments(alloc, rest, text.len())?;
    if all.rest.is_empty() {
        Ok(all)
    } else {
        Err(ReadFault::Syntax)
    }
}

fn fault_in(total: usize, flaw: Flaw) -> PathFault
    ensures { result ≡ fault_of total flaw }
{
    let at = total.saturating_sub(flaw.left) as u64;
    match flaw.kind {
        FlawKind::IllTyped => PathFault::IllTyped(at),
        FlawKind::Fraction => PathFault::Fraction(at),
        FlawKind::IntegerRange => PathFault::IntegerRange(at),
    }
}

/// The segments of the query that a text is, or the fault that it has.
#[tactic(auto, unfolding(crate::specs::Answers::answer))]
pub(crate) fn answered(alloc: Global, text: &[u8]) -> Result<Items<Segment>, PathFault>
    ensures { Answers result (answer text.now) }
{
    if let Some(at) = too_nested(text) {
        return Err(PathFault::TooNested(at));
    }
    let all = match whole(alloc, text) {
        Ok(all) => all,
        Err(ReadFault::Syntax) => return Err(PathFault::Syntax),
        Err(ReadFault::Memory) => return Err(PathFault::Memory),
    };
    if let Some(flaw) = all.marks.flaw {
        return Err(fault_in(text.len(), flaw));
    }
    Ok(all.value)
}
