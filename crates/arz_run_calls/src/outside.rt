// Files and sinks in memory.
use arz_cases::{Case, CaseFault, Outcome};
use arz_json::{Bytes, Many, Text};
use arz_world::{
    FileFault, Files, MemoryFiles, MemorySink, NamedBytes, Sink, SinkFault, note_fault,
};
use serde_json::Value;
use std::alloc::Global;

/// The files of a case: an object that names them, or a list of such objects, where the first file of
/// a path is the one that is read. Of the reads those in `failing_reads` fail.
pub fn files_of(alloc: Global, case: &Case<'_>) -> Result<MemoryFiles, CaseFault> {
    let mut named = Vec::new(alloc);
    let files = case.member("files").ok_or(CaseFault::Malformed("files"))?;
    match files {
        Value::Array(groups) => {
            for group in groups {
                add_files(alloc, case, case.resolved(group), &mut named)?;
            }
        }
        _ => add_files(alloc, case, files, &mut named)?,
    }
    let failing = case.numbers(alloc, "failing_reads")?;
    let failing = Many::from_std(failing);
    Ok(MemoryFiles::new(alloc, Many::from_std(named), failing))
}

fn add_files<'a>(
    alloc: Global,
    case: &Case<'a>,
    files: &'a Value,
    named: &mut Vec<NamedBytes>,
) -> Result<(), CaseFault> {
    let files = files.as_object().ok_or(CaseFault::Malformed("files"))?;
    for (path, content) in files.iter() {
        let path = Text::from_std(String::from_str(alloc, path.as_str())?);
        let bytes = Bytes::from_std(case.bytes_of(alloc, content)?);
        named.push(NamedBytes { path, bytes })?;
    }
    Ok(())
}

/// The sink of a case, of which the puts in `failing_puts` fail.
pub fn sink_of(alloc: Global, case: &Case<'_>) -> Result<MemorySink, CaseFault> {
    let failing = case.numbers(alloc, "failing_puts")?;
    Ok(MemorySink::new(alloc, Many::from_std(failing)))
}

/// Reads the files at `paths` with a limit, one after another; each takes a line.
pub fn reads(alloc: Global, case: &Case<'_>) -> Result<Outcome, CaseFault> {
    let mut files = files_of(alloc, case)?;
    let limit = case.number("limit").ok_or(CaseFault::Malformed("limit"))?;
    let mut text = Vec::new(alloc);
    for path in case.items("paths") {
        let path = path.as_str().ok_or(CaseFault::Malformed("paths"))?;
        match read_from(&mut files, path, limit) {
            Ok(bytes) => text.extend_from_slice(&bytes)?,
            Err(FileFault::Failed) => text.extend_from_slice(b"Failed")?,
            Err(FileFault::Memory) => return Err(CaseFault::Memory),
        }
        text.push(b'\n')?;
    }
    Ok(Outcome { text, status: None })
}

fn read_from<F: Files>(files: &mut F, path: &str, limit: u64) -> Result<Vec<u8>, FileFault> {
    files.read(path, limit)
}

/// Puts the texts of `puts`, one after another: a line for each that fails, and then what is held.
pub fn puts(alloc: Global, case: &Case<'_>) -> Result<Outcome, CaseFault> {
    let mut sink = sink_of(alloc, case)?;
    let mut text = Vec::new(alloc);
    for put in case.items("puts") {
        let put = put.as_str().ok_or(CaseFault::Malformed("puts"))?;
        match put_into(&mut sink, put.as_bytes()) {
            Ok(()) => {}
            Err(SinkFault::Failed) => text.extend_from_slice(b"Failed\n")?,
            Err(SinkFault::Memory) => return Err(CaseFault::Memory),
        }
    }
    text.extend_from_slice(sink.bytes())?;
    Ok(Outcome { text, status: None })
}

fn put_into<S: Sink>(sink: &mut S, bytes: &[u8]) -> Result<(), SinkFault> {
    sink.put(bytes)
}

/// Notes that reads of `paths` failed, one after another, and lists what was noted.
pub fn notes(alloc: Global, case: &Case<'_>) -> Result<Outcome, CaseFault> {
    let mut failed = Many::new(alloc);
    for path in case.items("paths") {
        let path = path.as_str().ok_or(CaseFault::Malformed("paths"))?;
        note_fault(alloc, &mut failed, path)?;
    }
    let mut text = String::new(alloc);
    for path in failed.as_slice() {
        text.push_str(path.as_str())?;
        text.push_str("\n")?;
    }
    Ok(Outcome::text(text))
}
