// Whether an attempt succeeded (Arazzo 1.0.1, 4.6.5.1: successCriteria).
ghost use Rattle.std.specs.Prelude.{◌≡◌, All, IsErrOf, true};
ghost use Rattle.arz_cond.specs.Criteria.{IsRead};
ghost use Rattle.arz_cond.specs.Holding.{Answers};
ghost use Rattle.arz_flow.specs.Verdicts.{is_success as has_success};
ghost use Rattle.arz_path.specs.Results.{Asked};
ghost use Rattle.arz_machine.specs.Tests.{all_met, judged, any_matched};

use arz_cond::{CondFault, Test};
use arz_expr::Scope;
use arz_rx::Patterns;
use arz_world::Reply;
use std::alloc::Global;

/// Whether an attempt with this reply succeeded: all of the criteria hold, or, where there are none, its status is
/// one of 200 to 299 (RFC 9110, 15.3). They are tried in order, up to the first that doesn't hold.
pub(crate) fn succeeds<S: Scope, P: Patterns>(
    alloc: Global,
    tests: &[Test],
    reply: &Reply,
    scope: &S,
    rx: &mut P,
) -> Result<bool, CondFault>
    requires { All IsRead tests.now }
    ensures says { Answers result (judged (P.patterns rx.old).told (S.found scope.now) reply.now tests.now) (P.patterns rx.old) (P.patterns rx.new) }
    ensures matched { IsErrOf result CondFault.Pattern → any_matched tests.now ≡ true }
    ensures asked { Asked (P.patterns rx.old) (P.patterns rx.new) }
{
    if tests.is_empty() {
        return Ok(is_success(reply));
    }
    all_hold(alloc, tests, scope, rx)
}

fn all_hold<S: Scope, P: Patterns>(
    alloc: Global,
    tests: &[Test],
    scope: &S,
    rx: &mut P,
) -> Result<bool, CondFault>
    requires { All IsRead tests.now }
    ensures says { Answers result (all_met (P.patterns rx.old).told (S.found scope.now) tests.now) (P.patterns rx.old) (P.patterns rx.new) }
    ensures matched { IsErrOf result CondFault.Pattern → any_matched tests.now ≡ true }
    ensures asked { Asked (P.patterns rx.old) (P.patterns rx.new) }
{
    for test in tests {
        if !test.holds(alloc, scope, rx)? {
            return Ok(false);
        }
    }
    Ok(true)
}

// Where there are no criteria, an attempt succeeds at the statuses 200 to 299.
fn is_success(reply: &Reply) -> bool
    ensures { result ≡ has_success reply.now }
{
    200 <= reply.status && reply.status <= 299
}
