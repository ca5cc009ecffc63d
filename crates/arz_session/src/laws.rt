//! The law of runs over given replies. It has no code. `rx` says what is told of patterns.
ghost use Rattle.arz_session.specs.Laws.{EndsOver};

use arz_rx::Patterns;

/// Over any replies the execution of a valid bundle takes a front of them, at most one for each step,
/// and comes to an end, where all that it needs of patterns is told; it takes all of them where it lacks
/// an answer.
pub fn an_end<P: Patterns>(rx: &P)
    ensures { EndsOver (P.patterns rx.now).told }
{
    let _ = rx;
}
