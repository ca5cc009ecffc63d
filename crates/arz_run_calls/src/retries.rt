// How often retries are made, and how long they wait.
use crate::messages::{reply, text};
use arz_cases::{Case, CaseFault, Outcome};
use arz_json::Many;
use arz_relation::{Count, copied, delay as delay_after, made, once_more};
use std::alloc::{AllocError, Global};

/// The seconds before a retry that says `seconds`, after a reply with `headers`.
pub fn delay(alloc: Global, case: &Case<'_>) -> Result<Outcome, CaseFault> {
    let seconds = case.count("seconds")?;
    let reply = reply(alloc, case)?;
    let seconds = delay_after(seconds, &reply);
    Ok(Outcome::text(format!(in alloc; "{seconds}")?))
}

/// How often a `retry` was made by `counts`, and the counts after it was made once more, a line each.
pub fn retries(alloc: Global, case: &Case<'_>) -> Result<Outcome, CaseFault> {
    let name = case.word("retry");
    let counts = counts(alloc, case)?;
    let counts = copied(alloc, counts.as_slice())?;
    let times = made(counts.as_slice(), name);
    if times == u32::MAX {
        return Err(CaseFault::Malformed("counts"));
    }
    let more = once_more(alloc, counts.as_slice(), name)?;
    Ok(Outcome::text(lines(alloc, times, &more)?))
}

fn lines(alloc: Global, times: u32, counts: &Many<Count>) -> Result<String, AllocError> {
    let mut lines = format!(in alloc; "{times}\n")?;
    for count in counts.as_slice() {
        let name = count.name.as_str();
        let made = count.made;
        lines.push_str(format!(in alloc; "{name} {made}\n")?.as_str())?;
    }
    Ok(lines)
}

fn counts(alloc: Global, case: &Case<'_>) -> Result<Vec<Count>, CaseFault> {
    let mut counts = Vec::new(alloc);
    for item in case.items("counts") {
        let item = case.inner(item);
        let name = text(alloc, item.word("name"))?;
        let made = item.count("made")?;
        counts.push(Count { name, made })?;
    }
    Ok(counts)
}
