// Reading a description.
use arz_cases::{Case, CaseFault, Outcome};
use arz_doc::read;
use arz_rules::RuleFault;
use std::alloc::Global;

/// The least rule that `document` fails and the pointer of its least place, or `none` where it is read.
pub fn description(alloc: Global, case: &Case<'_>) -> Result<Outcome, CaseFault> {
    let tree = case.json(alloc, "document")?;
    match read(alloc, &tree) {
        Ok(_) => Ok(Outcome::words(alloc, "none")?),
        Err(RuleFault::Refused(refusal)) => Ok(Outcome::text(format!(in alloc;
            "{} {}",
            refusal.rule,
            refusal.pointer.as_str()
        )?)),
        Err(RuleFault::Memory) => Err(CaseFault::Memory),
    }
}
