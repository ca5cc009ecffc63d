// Runtime expressions and templates.
ghost use Rattle.std.specs.Prelude.{◌≤◌, Some};
ghost use Rattle.arz_json.specs.Tree.{depth, IsWellFormed};

use arz_cases::{Case, CaseFault, Outcome, text_of};
use arz_expr::{Base, Expr, FillFault, Scope, Tail, Template, fill as filled, value as value_of};
use arz_json::Json;
use std::alloc::{AllocError, Global};

// The scope in which each base has one value.
#[derive(Drop)]
struct Whole {
    root: Json,
    ghost well_formed: { IsWellFormed root },
    ghost nests: { depth root ≤ 127 },
}

impl Scope for Whole {
    ghost found = { λ s b. Some s.root };

    fn find(&self, _base: &Base) -> Option<&Json> {
        Some(&self.root)
    }
}

/// The parts of the expression that `text` is: the base, what follows it, and the pointer.
pub fn expression(alloc: Global, case: &Case<'_>) -> Result<Outcome, CaseFault> {
    let text = case.text(alloc, "text")?;
    let Some(expression) = Expr::read(alloc, text.as_str())? else {
        return Ok(Outcome::words(alloc, "none")?);
    };
    Ok(Outcome::text(expression_words(alloc, &expression)?))
}

fn expression_words(alloc: Global, expression: &Expr) -> Result<String, AllocError> {
    let mut words = base_words(alloc, &expression.base)?;
    add_tails(alloc, expression.tail.as_slice(), &mut words)?;
    if let Some(pointer) = &expression.pointer {
        words.push_str(" #")?;
        words.push_str(pointer.as_str())?;
    }
    Ok(words)
}

fn add_tails(alloc: Global, tails: &[Tail], words: &mut String) -> Result<(), AllocError> {
    for tail in tails {
        words.push_str(tail_words(alloc, tail)?.as_str())?;
    }
    Ok(())
}

fn tail_words(alloc: Global, tail: &Tail) -> Result<String, AllocError> {
    match tail {
        Tail::Member(name) => format!(in alloc; " .{}", name.as_str()),
        Tail::Index(at) => format!(in alloc; " [{at}]"),
    }
}

fn base_words(alloc: Global, base: &Base) -> Result<String, AllocError> {
    let (word, first, second) = match base {
        Base::Url => ("Url", "", ""),
        Base::Method => ("Method", "", ""),
        Base::StatusCode => ("StatusCode", "", ""),
        Base::RequestHeader(name) => ("RequestHeader ", name.as_str(), ""),
        Base::RequestQuery(name) => ("RequestQuery ", name.as_str(), ""),
        Base::RequestPath(name) => ("RequestPath ", name.as_str(), ""),
        Base::RequestBody => ("RequestBody", "", ""),
        Base::ResponseHeader(name) => ("ResponseHeader ", name.as_str(), ""),
        Base::ResponseBody => ("ResponseBody", "", ""),
        Base::Input(name) => ("Input ", name.as_str(), ""),
        Base::Output(name) => ("Output ", name.as_str(), ""),
        Base::StepOutput(step, name) => ("StepOutput ", step.as_str(), name.as_str()),
        Base::WorkflowInput(flow, name) => ("WorkflowInput ", flow.as_str(), name.as_str()),
        Base::WorkflowOutput(flow, name) => ("WorkflowOutput ", flow.as_str(), name.as_str()),
        Base::SourceUrl(name) => ("SourceUrl ", name.as_str(), ""),
        Base::SourceName(name) => ("SourceName ", name.as_str(), ""),
        Base::SourceKind(name) => ("SourceKind ", name.as_str(), ""),
    };
    let between = if second.is_empty() { "" } else { " " };
    format!(in alloc; "{word}{first}{between}{second}")
}

// The scope in which each base is the tree `values`.
fn scope_of(alloc: Global, case: &Case<'_>) -> Result<Whole, CaseFault> {
    let root = case.json(alloc, "values")?;
    Ok(Whole { root })
}

/// What the expression `text` stands for where each base is the tree `values`.
pub fn value(alloc: Global, case: &Case<'_>) -> Result<Outcome, CaseFault> {
    let scope = scope_of(alloc, case)?;
    let text = case.text(alloc, "text")?;
    let Some(expression) = Expr::read(alloc, text.as_str())? else {
        return Err(CaseFault::Malformed("an expression"));
    };
    match value_of(&expression, &scope) {
        Some(found) => Ok(Outcome::text(text_of(alloc, found)?)),
        None => Ok(Outcome::words(alloc, "none")?),
    }
}

/// What the template `template` gives where each base is the tree `values`: `given` and its text, or
/// the fault.
pub fn fill(alloc: Global, case: &Case<'_>) -> Result<Outcome, CaseFault> {
    let scope = scope_of(alloc, case)?;
    let tree = case.json(alloc, "template")?;
    let template = Template::read(alloc, &tree)?;
    Ok(match filled(alloc, &template, &scope) {
        Ok(given) => {
            let text = text_of(alloc, &given)?;
            Outcome::text(format!(in alloc; "given {text}")?)
        }
        Err(FillFault::Unresolved) => Outcome::words(alloc, "Unresolved")?,
        Err(FillFault::FractionUsed) => Outcome::words(alloc, "FractionUsed")?,
        Err(FillFault::TooNested) => Outcome::words(alloc, "TooNested")?,
        Err(FillFault::Memory) => return Err(CaseFault::Memory),
    })
}
