// The top call.
ghost use Rattle.std.specs.Prelude.{◌≡◌, ◌≤◌, map, string_bytes, codes, IfOk, MatchResult};
ghost use Rattle.arz_world.specs.Outside.{Gains, IsPrefix};
ghost use Rattle.arz_top.specs.Endings.{Faulted, Mocks, Checks, Comes};
ghost use Rattle.arz_top.specs.Report.{line};
ghost use Rattle.arz_top.specs.Ends.{Ends};
ghost use Rattle.arz_top.specs.Rows.{Rows};
ghost use Rattle.arz_top.specs.Words.{taken};

use crate::ending::Ending;
use crate::report::{report, status};
use crate::words::{Command, read_words};
use arz_bundle::{LoadFault, load};
use arz_rx::Patterns;
use arz_session::mock;
use arz_world::{Files, Sink, SinkFault};
use std::alloc::{AllocError, Global};

/// Does what the words say, puts the report into the sink, and answers the status that the program
/// ends with. The words come without the program's name. The clause `ends` says which report and
/// status belong to the words, files and patterns; the clause `rows` tells it again status by status.
/// `rx` is what searches for the patterns of overlays' targets and of criteria.
pub fn run_words<F: Files, S: Sink, P: Patterns>(
    alloc: Global,
    words: &[String],
    files: &mut F,
    out: &mut S,
    rx: &mut P,
) -> u8
    ensures ends { Ends (Comes (F.files files.old) (F.files files.new) (P.patterns rx.old) (P.patterns rx.new) (taken (map string_bytes words.now)))
        (S.sink out.old) (S.sink out.new) result }
    ensures rows { Rows (F.files files.old) (F.files files.new) (P.patterns rx.old) (P.patterns rx.new) (taken (map string_bytes words.now))
        (S.sink out.old) (S.sink out.new) result }
    ensures patterns { (P.patterns rx.old).too_big ≤ (P.patterns rx.new).too_big }
{
    print(alloc, words, files, out, rx)
}

fn print<F: Files, S: Sink, P: Patterns>(
    alloc: Global,
    words: &[String],
    files: &mut F,
    out: &mut S,
    rx: &mut P,
) -> u8
    ensures ends { Ends (Comes (F.files files.old) (F.files files.new) (P.patterns rx.old) (P.patterns rx.new) (taken (map string_bytes words.now)))
        (S.sink out.old) (S.sink out.new) result }
    ensures patterns { (P.patterns rx.old).too_big ≤ (P.patterns rx.new).too_big }
{
    let Ok(ending) = ending(alloc, words, files, rx) else {
        return memory(out);
    };
    let status = status(&ending);
    let Ok(text) = report(alloc, ending) else {
        return memory(out);
    };
    match out.put(text.as_slice()) {
        Ok(()) => status,
        Err(SinkFault::Failed) => 10,
        Err(SinkFault::Memory) => memory(out),
    }
}

// What the words come to.
fn ending<F: Files, P: Patterns>(
    alloc: Global,
    words: &[String],
    files: &mut F,
    rx: &mut P,
) -> Result<Ending, AllocError>
    ensures comes { IfOk result (Comes (F.files files.old) (F.files files.new) (P.patterns rx.old) (P.patterns rx.new) (taken (map string_bytes words.now))) }
    ensures patterns { (P.patterns rx.old).too_big ≤ (P.patterns rx.new).too_big }
{
    match read_words(words)? {
        Command::Mock(setup, replies) => {
            mock_files(alloc, files, rx, setup.as_str(), replies.as_str())
        }
        Command::Check(setup) => check_files(alloc, files, rx, setup.as_str()),
        Command::Unknown => Ok(Ending::Words),
    }
}

// Runs the workflow of a setup over given replies, from the files at these paths.
fn mock_files<F: Files, P: Patterns>(
    alloc: Global,
    files: &mut F,
    rx: &mut P,
    setup: &str,
    replies: &str,
) -> Result<Ending, AllocError>
    ensures mocks { IfOk result (Mocks (F.files files.old) (F.files files.new) (P.patterns rx.old) (P.patterns rx.new) replies.now setup.now) }
    ensures patterns { (P.patterns rx.old).too_big ≤ (P.patterns rx.new).too_big }
{
    let bundle = match load(alloc, setup, files, rx) {
        Ok(bundle) => bundle,
        Err(fault) => return fault_ending(fault),
    };
    let replies = match arz_bundle::replies(alloc, replies, files) {
        Ok(replies) => replies,
        Err(fault) => return fault_ending(fault),
    };
    Ok(Ending::Played(mock(alloc, &bundle, replies, rx)?))
}

// Loads the files of a setup.
fn check_files<F: Files, P: Patterns>(
    alloc: Global,
    files: &mut F,
    rx: &mut P,
    setup: &str,
) -> Result<Ending, AllocError>
    ensures checks { IfOk result (Checks (F.files files.old) (F.files files.new) (P.patterns rx.old) (P.patterns rx.new) setup.now) }
    ensures patterns { (P.patterns rx.old).too_big ≤ (P.patterns rx.new).too_big }
{
    match load(alloc, setup, files, rx) {
        Ok(_) => Ok(Ending::Ready),
        Err(fault) => fault_ending(fault),
    }
}

// What it comes to that files give nothing.
fn fault_ending(fault: LoadFault) -> Result<Ending, AllocError>
    ensures { MatchResult result (Faulted fault) (λ _. fault ≡ LoadFault.Memory) }
{
    match fault {
        LoadFault::File(path) => Ok(Ending::File(path)),
        LoadFault::Refused(refusal) => Ok(Ending::Refused(refusal)),
        LoadFault::Pattern => Ok(Ending::Pattern),
        LoadFault::Memory => Err(AllocError),
    }
}

// Memory ran out: the line that says so is tried once.
fn memory<S: Sink>(out: &mut S) -> u8
    ensures status { result ≡ 11 }
    ensures put { Gains (S.sink out.old).held (S.sink out.new).held (λ added. IsPrefix added (line (codes "memory"))) }
{
    let _ = out.put(b"memory\n");
    11
}
