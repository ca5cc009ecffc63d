// Matching and searching texts.
ghost use Rattle.std.specs.Prelude.{◌≡◌};
ghost use Rattle.arz_path.specs.Selected.{answered, searched_in};
ghost use Rattle.arz_path.specs.Seen.{worth_seen};
ghost use Rattle.arz_path.specs.Results.{Asked, Answers, bit_seen};

use crate::SelectFault;
use crate::values::{Worth, text_of};
use arz_rx::{Patterns, i_regexp};
use std::alloc::Global;

fn ask<P: Patterns>(pattern: &str, text: &str, rx: &mut P) -> Result<bool, SelectFault>
    ensures gives { Answers bit_seen result (answered ((P.patterns rx.old).told pattern.now text.now)) (P.patterns rx.old) (P.patterns rx.new) }
    ensures asked { Asked (P.patterns rx.old) (P.patterns rx.new) }
{
    match rx.search(pattern, text)? {
        Some(found) => Ok(found),
        None => Ok(false),
    }
}

/// Whether a text, or with `whole` all of it, matches a pattern (RFC 9535, sections 2.4.6 and 2.4.7). It is
/// false where one isn't a text.
pub fn is_match<P: Patterns>(
    alloc: Global,
    whole: bool,
    text: Worth,
    pattern: Worth,
    rx: &mut P,
) -> Result<bool, SelectFault>
    ensures gives { Answers bit_seen result (searched_in (P.patterns rx.old).told whole (worth_seen text.entry) (worth_seen pattern.entry))
        (P.patterns rx.old) (P.patterns rx.new) }
    ensures asked { Asked (P.patterns rx.old) (P.patterns rx.new) }
{
    let Some(text) = text_of(text) else {
        return Ok(false);
    };
    let Some(pattern) = text_of(pattern) else {
        return Ok(false);
    };
    let pattern = i_regexp(alloc, pattern, whole)?;
    ask(pattern.as_str(), text, rx)
}
