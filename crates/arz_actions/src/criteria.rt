// Criteria (Arazzo 1.0.1, section 4.6.11) that are read once.
ghost use Rattle.std.specs.Prelude.{◌≡◌, All, IfOk, IsErrOf, map, true};
ghost use Rattle.arz_path.specs.Results.{Asked};
ghost use Rattle.arz_cond.specs.Criteria.{IsRead, criterion_at};
ghost use Rattle.arz_cond.specs.Holding.{Answers};
ghost use Rattle.arz_actions.specs.Tests.{all_met, any_matched};

use arz_cond::{CondFault, Test, TestFault};
use arz_expr::Scope;
use arz_json::{Json, Many};
use arz_rx::Patterns;
use std::alloc::{AllocError, Global};

/// The criteria of a list, in order. Each is read here, once.
pub fn read_criteria(alloc: Global, items: &[Json]) -> Result<Many<Test>, AllocError>
    requires { All (λ c. IsRead (criterion_at c)) items.now }
    ensures { IfOk result (λ tests. tests ≡ map criterion_at items.now) }
{
    let mut tests = Vec::with_capacity(alloc, items.len())?;
    for item in items {
        tests.push(read_criterion(alloc, item)?)?;
    }
    Ok(Many::from_std(tests))
}

// A criterion that can be read.
#[tactic(auto, using(arz_cond::proofs::Functions::no_fault_but_memory))]
fn read_criterion(alloc: Global, item: &Json) -> Result<Test, AllocError>
    requires { IsRead (criterion_at item.now) }
    ensures { IfOk result (λ test. test ≡ criterion_at item.now) }
{
    match Test::of(alloc, item) {
        Ok(test) => Ok(test),
        Err(TestFault::Memory) => Err(AllocError),
        Err(_) => unreachable!(),
    }
}

/// Whether all of the criteria hold. They are tried in order, up to the first that doesn't.
pub fn all_hold<S: Scope, P: Patterns>(
    alloc: Global,
    tests: &[Test],
    scope: &S,
    rx: &mut P,
) -> Result<bool, CondFault>
    requires { All IsRead tests.now }
    ensures says { Answers result (all_met (P.patterns rx.old).told (S.found scope.now) tests.now) (P.patterns rx.old) (P.patterns rx.new) }
    ensures matched { IsErrOf result CondFault.Pattern → any_matched tests.now ≡ true }
    ensures asked { Asked (P.patterns rx.old) (P.patterns rx.new) }
{
    for test in tests {
        if !test.holds(alloc, scope, rx)? {
            return Ok(false);
        }
    }
    Ok(true)
}
