// Criteria.
use crate::bases::{Bases, bases_of};
use arz_cases::{Case, CaseFault, Outcome, flag_word};
use arz_cond::{CondFault, Test, TestFault};
use arz_query::PathFault;
use arz_query_calls::patterns_of;
use std::alloc::Global;

/// Whether the criterion of the type `kind`, `simple` where none is given, with the `condition` and the `context`,
/// holds where expressions stand for the members of the object `bases`; or the fault.
pub fn criterion(alloc: Global, case: &Case<'_>) -> Result<Outcome, CaseFault> {
    let bases = bases_of(alloc, case)?;
    let condition = case.text(alloc, "condition")?;
    let condition = condition.as_str();
    let context = case.word("context");
    let read = match case.word("kind") {
        "regex" => Test::read(alloc, "regex", condition, Some(context)),
        "jsonpath" => Test::read(alloc, "jsonpath", condition, Some(context)),
        _ => Test::read(alloc, "simple", condition, None),
    };
    match read {
        Ok(test) => holding(alloc, case, &test, &bases),
        Err(fault) => told(alloc, fault),
    }
}

fn holding(
    alloc: Global,
    case: &Case<'_>,
    test: &Test,
    bases: &Bases,
) -> Result<Outcome, CaseFault> {
    let mut patterns = patterns_of(alloc, case)?;
    match test.holds(alloc, bases, &mut patterns) {
        Ok(holds) => Ok(Outcome::words(alloc, flag_word(holds))?),
        Err(CondFault::TooWide) => Ok(Outcome::words(alloc, "TooWide")?),
        Err(CondFault::Pattern) => Ok(Outcome::words(alloc, "Pattern")?),
        Err(CondFault::Memory) => Err(CaseFault::Memory),
    }
}

fn told(alloc: Global, fault: TestFault) -> Result<Outcome, CaseFault> {
    match fault {
        TestFault::Fraction => Ok(Outcome::words(alloc, "Fraction")?),
        TestFault::BadExpression => Ok(Outcome::words(alloc, "BadExpression")?),
        TestFault::BadCondition => Ok(Outcome::words(alloc, "BadCondition")?),
        TestFault::BadPath(fault) => Ok(Outcome::text(query_fault(alloc, fault)?)),
        TestFault::Memory => Err(CaseFault::Memory),
    }
}

fn query_fault(alloc: Global, fault: PathFault) -> Result<String, CaseFault> {
    Ok(match fault {
        PathFault::Syntax => String::from_str(alloc, "BadPath Syntax")?,
        PathFault::IllTyped(at) => format!(in alloc; "BadPath IllTyped {at}")?,
        PathFault::Fraction(at) => format!(in alloc; "BadPath Fraction {at}")?,
        PathFault::IntegerRange(at) => format!(in alloc; "BadPath IntegerRange {at}")?,
        PathFault::TooNested(at) => format!(in alloc; "BadPath TooNested {at}")?,
        PathFault::Memory => return Err(CaseFault::Memory),
    })
}
