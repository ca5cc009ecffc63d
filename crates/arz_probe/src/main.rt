//! The libraries from the command line, for conformance runs and benchmarks: the wire form of JSON
//! trees by `wire FILE` and `unwire FILE`, queries of JSONPath by `path FILE QUERY`, overlays by
//! `overlay OVERLAY FILE`, the mapping of I-Regexps by `iregexp [--whole] TEXT`, the entries of a
//! journal by `journal FILE`, and replies that come in pieces by `reply [--head] PIECE FILE`.
#![tactic(auto)]

mod journals;
mod overlays;
mod paths;
mod query_report;
mod replies;
mod report;

use arz_real::RegexPatterns;
use journals::journal_report;
use overlays::overlay_report;
use query_report::{iregexp_report, path_report};
use replies::{piece_length, reply_report};
use report::{Report, file_report, unwire_report, wire_report, words_report};
use std::alloc::AllocError;
use std::io::{ErrorKind, Write};
use std::process::ExitCode;
use std::{env, fs, io};

// The status where standard output takes no more.
const NOT_PRINTED: u8 = 10;
// The status where memory ran out.
const OUT_OF_MEMORY: u8 = 11;

fn main(rt: HostRuntime) -> ExitCode {
    let Ok(report) = answered(&rt) else {
        return ended(&rt, b"memory\n", OUT_OF_MEMORY);
    };
    ended(&rt, report.text.as_slice(), report.status)
}

// What the words ask for.
fn answered(rt: &HostRuntime) -> Result<Report, AllocError> {
    let words = words(rt)?;
    match words.as_slice() {
        [mode, path] if mode.as_str() == "wire" => wired(rt, path.as_str()),
        [mode, path] if mode.as_str() == "unwire" => unwired(rt, path.as_str()),
        [mode, path, query] if mode.as_str() == "path" => {
            selected(rt, path.as_str(), query.as_str())
        }
        [mode, overlay, path] if mode.as_str() == "overlay" => {
            overlaid(rt, overlay.as_str(), path.as_str())
        }
        [mode, text] if mode.as_str() == "iregexp" => {
            iregexp_report(rt.alloc(), text.as_str(), false)
        }
        [mode, flag, text] if mode.as_str() == "iregexp" && flag.as_str() == "--whole" => {
            iregexp_report(rt.alloc(), text.as_str(), true)
        }
        [mode, path] if mode.as_str() == "journal" => journaled(rt, path.as_str()),
        [mode, piece, path] if mode.as_str() == "reply" => {
            replied(rt, false, piece.as_str(), path.as_str())
        }
        [mode, flag, piece, path] if mode.as_str() == "reply" && flag.as_str() == "--head" => {
            replied(rt, true, piece.as_str(), path.as_str())
        }
        _ => words_report(rt.alloc()),
    }
}

fn wired(rt: &HostRuntime, path: &str) -> Result<Report, AllocError> {
    match contents(rt, path)? {
        Some(bytes) => wire_report(rt.alloc(), bytes.as_slice()),
        None => file_report(rt.alloc(), path),
    }
}

fn unwired(rt: &HostRuntime, path: &str) -> Result<Report, AllocError> {
    match contents(rt, path)? {
        Some(bytes) => unwire_report(rt.alloc(), bytes.as_slice()),
        None => file_report(rt.alloc(), path),
    }
}

fn journaled(rt: &HostRuntime, path: &str) -> Result<Report, AllocError> {
    match contents(rt, path)? {
        Some(bytes) => journal_report(rt.alloc(), bytes),
        None => file_report(rt.alloc(), path),
    }
}

fn replied(
    rt: &HostRuntime,
    head_only: bool,
    piece: &str,
    path: &str,
) -> Result<Report, AllocError> {
    let Some(piece) = piece_length(piece) else {
        return words_report(rt.alloc());
    };
    match contents(rt, path)? {
        Some(bytes) => reply_report(rt.alloc(), head_only, piece, bytes.as_slice()),
        None => file_report(rt.alloc(), path),
    }
}

fn selected(rt: &HostRuntime, path: &str, query: &str) -> Result<Report, AllocError> {
    let mut patterns = RegexPatterns::new(rt.alloc());
    match contents(rt, path)? {
        Some(bytes) => path_report(rt.alloc(), bytes.as_slice(), query, &mut patterns),
        None => file_report(rt.alloc(), path),
    }
}

fn overlaid(rt: &HostRuntime, overlay: &str, path: &str) -> Result<Report, AllocError> {
    let Some(document) = contents(rt, overlay)? else {
        return file_report(rt.alloc(), overlay);
    };
    let Some(bytes) = contents(rt, path)? else {
        return file_report(rt.alloc(), path);
    };
    let mut patterns = RegexPatterns::new(rt.alloc());
    overlay_report(
        rt.alloc(),
        document.as_slice(),
        bytes.as_slice(),
        &mut patterns,
    )
}

// The bytes of a file, or none where it can't be read.
fn contents(rt: &HostRuntime, path: &str) -> Result<Option<Vec<u8>>, AllocError> {
    match fs::read(rt, path) {
        Ok(bytes) => Ok(Some(bytes)),
        Err(fault) if fault.kind() == ErrorKind::OutOfMemory => Err(AllocError),
        Err(_) => Ok(None),
    }
}

// The words behind the program's name, or none where one of them is no UTF-8.
fn words(rt: &HostRuntime) -> Result<Vec<String>, AllocError> {
    let mut words = Vec::new(rt.alloc());
    match env::args(rt) {
        Ok(args) => {
            for arg in args.skip(1) {
                words.push(arg)?;
            }
        }
        Err(fault) => {
            if fault.kind() == ErrorKind::OutOfMemory {
                return Err(AllocError);
            }
        }
    }
    Ok(words)
}

fn ended(rt: &HostRuntime, text: &[u8], status: u8) -> ExitCode {
    match io::writer(rt).write_all(text) {
        Ok(()) => ExitCode::from(status),
        Err(fault) if fault.kind() == ErrorKind::OutOfMemory => ExitCode::from(OUT_OF_MEMORY),
        Err(_) => ExitCode::from(NOT_PRINTED),
    }
}
