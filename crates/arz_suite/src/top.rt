// The top call.
use arz_cases::{Case, CaseFault, Outcome};
use arz_query_calls::patterns_of;
use arz_run_calls::{files_of, sink_of};
use arz_top::run_words;
use std::alloc::Global;

/// Runs `words` over the case's files, sink and patterns.
pub fn words(alloc: Global, case: &Case<'_>) -> Result<Outcome, CaseFault> {
    let mut words = Vec::new(alloc);
    for word in case.items("words") {
        let word = word.as_str().ok_or(CaseFault::Malformed("words"))?;
        words.push(String::from_str(alloc, word)?)?;
    }
    let mut files = files_of(alloc, case)?;
    let mut out = sink_of(alloc, case)?;
    let mut rx = patterns_of(alloc, case)?;
    let status = run_words(alloc, &words, &mut files, &mut out, &mut rx);
    let text = out.bytes().to_vec(alloc)?;
    Ok(Outcome {
        text,
        status: Some(status),
    })
}
