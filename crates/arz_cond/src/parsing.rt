// What the texts of a criterion spell, and why they give none.
ghost use Rattle.std.specs.Prelude.{◌≡◌, ◌≢◌, false, None, IsSome, codes};
ghost use Rattle.std.specs.Option.{option_copied};
ghost use Rattle.arz_cond.specs.Criteria.{IsKind};
ghost use Rattle.arz_cond.specs.Reading.{reading};
ghost use Rattle.arz_cond.specs.Parsing.{RefusesText, ReadsText, ReadsContext, ReadsQuery, Parses, fault_as};

use crate::fault::TestFault;
use crate::literals::expression;
use crate::pieces::ReadFault;
use crate::reading::condition as read_condition;
use crate::term::Term;
use crate::test::Parsed;
use arz_expr::Expr;
use arz_query::{PathFault, Query};
use std::alloc::Global;

// The fault of a text that is no condition.
#[tactic(auto, using(crate::proofs::Contract::needs_fraction, crate::proofs::Contract::no_condition))]
fn refused(alloc: Global, text: &[u8]) -> TestFault
    requires { reading false text.now ≡ None }
    ensures { RefusesText text.now result }
{
    match read_condition(alloc, text, true) {
        Ok(_) => TestFault::Fraction,
        Err(ReadFault::Syntax) => TestFault::BadCondition,
        Err(ReadFault::Memory) => TestFault::Memory,
    }
}

// A simple condition.
#[tactic(auto, using(crate::proofs::Contract::is_condition))]
fn simple(alloc: Global, text: &str) -> Result<Term, TestFault>
    ensures { ReadsText text.now result }
{
    let bytes = text.as_bytes();
    match read_condition(alloc, bytes, false) {
        Ok(term) => Ok(term),
        Err(ReadFault::Syntax) => Err(refused(alloc, bytes)),
        Err(ReadFault::Memory) => Err(TestFault::Memory),
    }
}

// The expression that a context is.
#[tactic(auto, using(crate::proofs::Contract::is_context, crate::proofs::Contract::no_context))]
fn context_of(alloc: Global, context: Option<&str>) -> Result<Expr, TestFault>
    requires { IsSome context }
    ensures { ReadsContext (option_copied context.entry) result }
{
    let Some(text) = context else {
        unreachable!();
    };
    let Ok(read) = expression(alloc, text) else {
        return Err(TestFault::Memory);
    };
    match read {
        Some(expr) => Ok(expr),
        None => Err(TestFault::BadExpression),
    }
}

fn fault_of(fault: PathFault) -> TestFault
    ensures { result ≡ fault_as fault }
{
    match fault {
        PathFault::Memory => TestFault::Memory,
        _ => TestFault::BadPath(fault),
    }
}

// The query that a condition is.
fn query(alloc: Global, text: &str) -> Result<Query, TestFault>
    ensures { ReadsQuery text.now result }
{
    match Query::read(alloc, text) {
        Ok(query) => Ok(query),
        Err(fault) => Err(fault_of(fault)),
    }
}

/// What the texts of a criterion spell, by its type.
pub(crate) fn parse(
    alloc: Global,
    kind: &str,
    condition: &str,
    context: Option<&str>,
) -> Result<Parsed, TestFault>
    requires kind { IsKind kind.now }
    requires context { kind.now ≢ codes "simple" → IsSome context }
    ensures { Parses (record { kind = kind.now; condition = condition.now; context = option_copied context.entry }) result }
{
    if kind == "simple" {
        return Ok(Parsed::Simple(simple(alloc, condition)?));
    }
    let expr = context_of(alloc, context)?;
    if kind == "regex" {
        return Ok(Parsed::Regex(expr));
    }
    Ok(Parsed::Path(query(alloc, condition)?, expr))
}
