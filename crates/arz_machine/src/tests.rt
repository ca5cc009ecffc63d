// The success criteria of steps (Arazzo 1.0.1, 4.6.5.1), each read once.
ghost use Rattle.std.specs.Prelude.{◌≡◌, All, map, IfOk};
ghost use Rattle.arz_cond.specs.Criteria.{IsRead, criterion_at};
ghost use Rattle.arz_flow.specs.Documents.{criteria_of};
ghost use Rattle.arz_flow.specs.Valid.{IsCriterion};
ghost use Rattle.arz_machine.specs.Tests.{tests_of};

use arz_cond::{Test, TestFault};
use arz_flow::items_at;
use arz_json::{Json, Many};
use std::alloc::{AllocError, Global};

/// The criteria of each step.
pub(crate) fn tests(alloc: Global, steps: &[Json]) -> Result<Many<Many<Test>>, AllocError>
    requires { All (λ step. All IsCriterion (criteria_of step)) steps.now }
    ensures { IfOk result (λ tests. tests ≡ map tests_of steps.now) }
{
    let mut tests = Vec::with_capacity(alloc, steps.len())?;
    for step in steps {
        tests.push(step_tests(alloc, items_at(step, "successCriteria"))?)?;
    }
    Ok(Many::from_std(tests))
}

// The criteria of one step.
fn step_tests(alloc: Global, criteria: &[Json]) -> Result<Many<Test>, AllocError>
    requires { All IsCriterion criteria.now }
    ensures { IfOk result (λ tests. tests ≡ map criterion_at criteria.now) }
{
    let mut tests = Vec::with_capacity(alloc, criteria.len())?;
    for criterion in criteria {
        tests.push(test(alloc, criterion)?)?;
    }
    Ok(Many::from_std(tests))
}

// A criterion that can be read.
#[tactic(auto, using(arz_cond::proofs::Functions::no_fault_but_memory))]
fn test(alloc: Global, criterion: &Json) -> Result<Test, AllocError>
    requires { IsRead (criterion_at criterion.now) }
    ensures { IfOk result (λ test. test ≡ criterion_at criterion.now) }
{
    match Test::of(alloc, criterion) {
        Ok(test) => Ok(test),
        Err(TestFault::Memory) => Err(AllocError),
        Err(_) => unreachable!(),
    }
}
