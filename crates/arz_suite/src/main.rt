//! Tries the cases of the files that its words name: each case calls a public call over forms in
//! memory, and what it comes to is compared with what the case expects.
#![tactic(auto)]

mod call;
mod table;
mod top;

use std::process::ExitCode;
use std::{env, io};
use table::{Totals, try_file};

fn main(rt: HostRuntime) -> io::Result<ExitCode> {
    let mut totals = Totals::default();
    for file in env::args(&rt)?.skip(1) {
        try_file(&rt, file.as_str(), &mut totals)?;
    }
    println!(rt; "{} passed, {} failed", totals.passed, totals.failed)?;
    Ok(ExitCode::from(u8::from(totals.failed > 0)))
}
