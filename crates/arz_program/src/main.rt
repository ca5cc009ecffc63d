//! Reads the words, runs them over the files of the folder and standard output, and ends with the
//! status.
#![tactic(auto)]

#[cfg(test)]
mod tests;

use arz_real::{FolderFiles, RegexPatterns, StdoutSink};
use arz_top::run_words;
use arz_world::Sink;
use std::alloc::AllocError;
use std::env;
use std::io::ErrorKind;
use std::process::ExitCode;

// The status where memory ran out.
const OUT_OF_MEMORY: u8 = 11;

fn main(rt: HostRuntime) -> ExitCode {
    let mut files = FolderFiles::new(&rt);
    let mut out = StdoutSink::new(&rt);
    let Ok(words) = words(&rt) else {
        let _ = out.put(b"memory\n");
        return ExitCode::from(OUT_OF_MEMORY);
    };
    let mut rx = RegexPatterns::new(rt.alloc());
    ExitCode::from(run_words(rt.alloc(), &words, &mut files, &mut out, &mut rx))
}

// The words behind the program's name, or none where one of them is no UTF-8.
fn words(rt: &HostRuntime) -> Result<Vec<String>, AllocError> {
    let mut words = Vec::new(rt.alloc());
    match env::args(rt) {
        Ok(args) => {
            for arg in args.skip(1) {
                words.push(arg)?;
            }
        }
        Err(fault) => {
            if fault.kind() == ErrorKind::OutOfMemory {
                return Err(AllocError);
            }
        }
    }
    Ok(words)
}
