// A run over given replies.
ghost use Rattle.std.specs.Prelude.{◌≡◌, ◌++◌, ◌∷◌, [], List, true, false, IfOk};
ghost use Rattle.arz_flow.specs.declared.answers.Answer.{Answer};
ghost use Rattle.arz_flow.specs.declared.bundle.Bundle.{Bundle};
ghost use Rattle.arz_flow.specs.Valid.{IsValid};
ghost use Rattle.arz_flow.specs.Verdicts.{asks_patterns};
ghost use Rattle.arz_machine.specs.At.{standing, At};
ghost use Rattle.arz_machine.specs.States.{is_sending};
ghost use Rattle.arz_path.specs.Results.{Asked};
ghost use Rattle.arz_rx.specs.Patterns.{Rose};
ghost use Rattle.arz_session.specs.Mock.{IsMock, OnlyWhereRose};
ghost use Rattle.arz_session.specs.Played.{Plays, outcome_by};

use crate::session::{How, Line, Outcome, Session};
use arz_flow::{Bundle, End, send_text};
use arz_json::Many;
use arz_machine::{Machine, MachineFault, Next};
use arz_rx::Patterns;
use arz_world::Reply;
use std::alloc::{AllocError, Global};

/// Runs a bundle's starting workflow over given replies, and sends nothing. It takes replies until
/// the execution ends, and ends with `Out` where there are too few. `rx` searches for the patterns of
/// criteria; the outcome is `Pattern` only where the count of patterns too big has risen.
pub fn mock<P: Patterns>(
    alloc: Global,
    bundle: &Bundle,
    replies: Many<Reply>,
    rx: &mut P,
) -> Result<Session, AllocError>
    requires { IsValid bundle.now }
    ensures mock { IfOk result (IsMock (P.patterns rx.old).told bundle.now replies) }
    ensures pattern { IfOk result (λ s. OnlyWhereRose bundle.now (P.patterns rx.old) (P.patterns rx.new) s.outcome) }
    ensures asked { Asked (P.patterns rx.old) (P.patterns rx.new) }
{
    let mut machine = Machine::start(alloc, bundle)?;
    let mut lines = Vec::new(alloc);
    let pattern = play(alloc, &mut machine, replies.as_slice(), &mut lines, rx)?;
    Ok(Session {
        lines: Many::from_std(lines),
        outcome: outcome(machine.into_end(), pattern),
    })
}

// How a session ended: for a pattern that was too big, or at this end.
fn outcome(end: End, pattern: bool) -> Outcome
    ensures { result ≡ outcome_by pattern end }
{
    if pattern {
        Outcome::Pattern
    } else {
        Outcome::Ended(end)
    }
}

// Tells a machine the replies, up to its end, and adds the line of each. It stops where a pattern is too big, and says so.
fn play<P: Patterns>(
    alloc: Global,
    machine: &mut Machine,
    replies: &[Reply],
    lines: &mut Vec<Line>,
    rx: &mut P,
) -> Result<bool, AllocError>
    requires { lines.old.items ≡ [] }
    ensures plays { IfOk result (λ pattern. (b : Bundle) → At (P.patterns rx.old).told (standing machine.old) b []
        → Plays pattern (P.patterns rx.old).told b replies.now (standing machine.new) lines.new.items) }
    ensures rose { IfOk result (λ pattern. pattern ≡ true → Rose (P.patterns rx.old).too_big (P.patterns rx.new).too_big) }
    ensures asks { IfOk result (λ pattern. pattern ≡ true → (b : Bundle) → At (P.patterns rx.old).told (standing machine.old) b [] → asks_patterns b ≡ true) }
    ensures asked { Asked (P.patterns rx.old) (P.patterns rx.new) }
{
    for reply in replies {
        let n = machine.number();
        let ask = match machine.next() {
            Next::Ended(_) => return Ok(false),
            Next::Send(request) => send_text(alloc, request)?,
        };
        let status = Some(reply.status);
        lines.push(Line {
            n,
            ask,
            status,
            how: How::Mock,
        })?;
        if tell(machine, reply, rx)? {
            return Ok(true);
        }
    }
    Ok(false)
}

// Tells a machine the reply to the request that it asks for, unless a pattern is too big, and says whether one was.
fn tell<P: Patterns>(machine: &mut Machine, reply: &Reply, rx: &mut P) -> Result<bool, AllocError>
    requires { is_sending (standing machine.old).rest ≡ true }
    ensures taken { IfOk result (λ pattern. pattern ≡ false → (b : Bundle) (r : List Answer) → At (P.patterns rx.old).told (standing machine.old) b r
        → At (P.patterns rx.old).told (standing machine.new) b (r ++ Answer.Reply reply.now ∷ [])) }
    ensures kept { IfOk result (λ pattern. pattern ≡ true → standing machine.new ≡ standing machine.old) }
    ensures rose { IfOk result (λ pattern. pattern ≡ true → Rose (P.patterns rx.old).too_big (P.patterns rx.new).too_big) }
    ensures asks { IfOk result (λ pattern. pattern ≡ true → asks_patterns (standing machine.old).bundle ≡ true) }
    ensures asked { Asked (P.patterns rx.old) (P.patterns rx.new) }
{
    match machine.tell(reply, rx) {
        Ok(()) => Ok(false),
        Err(MachineFault::Pattern) => Ok(true),
        Err(MachineFault::WrongKind) => unreachable!(),
        Err(MachineFault::Memory) => Err(AllocError),
    }
}
