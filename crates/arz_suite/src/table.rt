// Files of cases, and how many of them passed.
use crate::call::Call;
use arz_cases::{Case, CaseFault, Outcome};
use serde_json::Value;
use std::alloc::Global;
use std::fs::Files;
use std::{fs, io};

/// How many bytes of a text are shown where a case differs.
const SHOWN: usize = 400;

/// How many cases passed, and how many differed or couldn't be tried.
#[derive(Clone, Copy, Debug, Default)]
pub struct Totals {
    pub passed: u64,
    pub failed: u64,
}

/// Tries each case of a file, and prints a line for each that differs.
pub fn try_file<R: Files + Print + AllocGlobal>(
    rt: &R,
    file: &str,
    totals: &mut Totals,
) -> io::Result<()> {
    let text = fs::read_to_string(rt, file)?;
    let Ok(table) = Value::from_str(rt.alloc(), text.as_str()) else {
        return fail(rt, totals, file, "no JSON text");
    };
    let Some(cases) = table.get("cases").and_then(Value::as_array) else {
        return fail(rt, totals, file, "no cases");
    };
    for tree in cases {
        let case = Case::new(tree, table.get("shared"));
        try_case(rt, file, &case, totals)?;
    }
    Ok(())
}

fn try_case<R: Print + AllocGlobal>(
    rt: &R,
    file: &str,
    case: &Case<'_>,
    totals: &mut Totals,
) -> io::Result<()> {
    match difference(rt.alloc(), case) {
        Ok(None) => {
            totals.passed = totals.passed.saturating_add(1);
            Ok(())
        }
        Ok(Some(difference)) => fail_case(rt, totals, file, case, difference.as_str()),
        Err(CaseFault::Malformed(what)) => {
            let words = format!(in rt.alloc(); "malformed: {what}")?;
            fail_case(rt, totals, file, case, words.as_str())
        }
        Err(CaseFault::Memory) => fail_case(rt, totals, file, case, "out of memory"),
    }
}

fn fail_case<R: Print + AllocGlobal>(
    rt: &R,
    totals: &mut Totals,
    file: &str,
    case: &Case<'_>,
    words: &str,
) -> io::Result<()> {
    let name = case.word("name");
    let place = format!(in rt.alloc(); "{file}: {name}")?;
    fail(rt, totals, place.as_str(), words)
}

fn fail<R: Print>(rt: &R, totals: &mut Totals, place: &str, words: &str) -> io::Result<()> {
    totals.failed = totals.failed.saturating_add(1);
    println!(rt; "{place}: {words}")
}

// How what a case comes to differs from what it expects.
fn difference(alloc: Global, case: &Case<'_>) -> Result<Option<String>, CaseFault> {
    let call = Call::named(case.word("call")).ok_or(CaseFault::Malformed("call"))?;
    let expected = case.bytes(alloc, "expect")?;
    let outcome = call.outcome(alloc, case)?;
    if is_expected(&outcome, expected.as_slice(), case.number("status")) {
        return Ok(None);
    }
    let came = shown(outcome.text.as_slice());
    let wanted = shown(expected.as_slice());
    Ok(Some(match outcome.status {
        Some(status) => format!(in alloc; "{status} {came}, expected {wanted}")?,
        None => format!(in alloc; "{came}, expected {wanted}")?,
    }))
}

fn is_expected(outcome: &Outcome, text: &[u8], status: Option<u64>) -> bool {
    outcome.text.as_slice() == text && outcome.status.map(u64::from) == status
}

// The text of bytes, where it is one that isn't long.
fn shown(bytes: &[u8]) -> &str {
    if bytes.len() > SHOWN {
        return "(a long text)";
    }
    str::from_utf8(bytes).unwrap_or("(no text)")
}
