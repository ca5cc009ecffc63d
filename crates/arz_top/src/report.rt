// The report of what a command comes to, and its status.
ghost use Rattle.std.specs.Prelude.{◌≡◌, ◌++◌, true, IfOk, OnOk, string_bytes};
ghost use Rattle.serde_json.specs.Written.{compact_text};
ghost use Rattle.arz_json.specs.Writing.{data_of};
ghost use Rattle.arz_json.specs.declared.Json.TheVariants.{Object};
ghost use Rattle.arz_machine.specs.Plain.{are_plain, has_plain_outputs};
ghost use Rattle.arz_session.specs.Plain.{is_plain};
ghost use Rattle.arz_top.specs.Report.{line, how_text, status_text, ask_line, ask_lines, outputs_line, session_report, file_report, rule_name as name_of_rule, refusal_line, report as report_of, end_status as status_of_end, outcome_lines, outcome_status as status_of_outcome, status as status_of};

use crate::ending::Ending;
use arz_flow::{End, end_line};
use arz_json::{CompactFault, Json, Members, Refusal, compact};
use arz_session::{How, Line, Outcome, Session};
use std::alloc::{AllocError, Global};

/// What is printed.
pub(crate) fn report(alloc: Global, ending: Ending) -> Result<Vec<u8>, AllocError>
    ensures { IfOk result (λ bytes. bytes.items ≡ report_of ending) }
{
    match ending {
        Ending::Words => b"words\n".to_vec(alloc),
        Ending::File(path) => file_line(alloc, path.as_str()),
        Ending::Refused(refusal) => write_refusal(alloc, &refusal),
        Ending::Pattern => b"pattern\n".to_vec(alloc),
        Ending::Ready => b"ok\n".to_vec(alloc),
        Ending::Played(session) => write_session(alloc, session),
    }
}

/// What the program ends with.
pub(crate) fn status(ending: &Ending) -> u8
    ensures { result ≡ status_of ending.now }
{
    match ending {
        Ending::Words => 2,
        Ending::File(_) => 13,
        Ending::Refused(_) => 3,
        Ending::Pattern => 15,
        Ending::Ready => 0,
        Ending::Played(session) => outcome_status(&session.outcome),
    }
}

fn outcome_status(outcome: &Outcome) -> u8
    ensures { result ≡ status_of_outcome outcome.now }
{
    match outcome {
        Outcome::Ended(end) => end_status(end),
        Outcome::Pattern => 15,
    }
}

fn end_status(end: &End) -> u8
    ensures { result ≡ status_of_end end.now }
{
    match end {
        End::Completed(_) => 0,
        End::Broke(_) => 1,
        End::Out(_) => 14,
        End::Stuck(_, _) => 7,
        End::Budget(_) => 6,
    }
}

fn file_line(alloc: Global, path: &str) -> Result<Vec<u8>, AllocError>
    ensures { IfOk result (λ bytes. bytes.items ≡ file_report path.now) }
{
    let mut text = String::from_str(alloc, "file ")?;
    text.push_str(path)?;
    text.push_str("\n")?;
    text.as_bytes().to_vec(alloc)
}

// The names of the rules, by their numbers.
fn rule_name(rule: u8) -> &'static str
    ensures { result.now ≡ name_of_rule rule }
{
    match rule {
        0 => "NotBuilt",
        1 => "TooLarge",
        2 => "NotJson",
        3 => "Shape",
        4 => "Version",
        5 => "BadName",
        6 => "DuplicateId",
        7 => "Exclusive",
        8 => "UnknownReference",
        9 => "DependencyCycle",
        10 => "Xpath",
        11 => "TypeObject",
        12 => "Fraction",
        13 => "BadExpression",
        14 => "BadCondition",
        15 => "BadPath",
        16 => "BadPattern",
        17 => "AmbiguousOperation",
        18 => "ExternalRef",
        19 => "RefTooLong",
        20 => "ServerNotHttp",
        21 => "MissingPathParameter",
        22 => "ReservedHeader",
        23 => "MediaType",
        24 => "OverLimit",
        25 => "OverlayTarget",
        26 => "OverlayMismatch",
        27 => "MissingInput",
        _ => "",
    }
}

fn write_refusal(alloc: Global, refusal: &Refusal) -> Result<Vec<u8>, AllocError>
    ensures { IfOk result (λ bytes. bytes.items ≡ refusal_line refusal.now) }
{
    let rule = refusal.rule;
    let mut text = String::from_str(alloc, "refused ")?;
    write!(text, "{rule}")?;
    text.push_str(" ")?;
    text.push_str(rule_name(rule))?;
    text.push_str(" ")?;
    text.push_str(refusal.label.as_str())?;
    text.push_str("#")?;
    text.push_str(refusal.pointer.as_str())?;
    text.push_str("\n")?;
    text.as_bytes().to_vec(alloc)
}

fn write_session(alloc: Global, session: Session) -> Result<Vec<u8>, AllocError>
    ensures { IfOk result (λ bytes. bytes.items ≡ session_report session) }
{
    let Session { lines, outcome } = session;
    let n = lines.len() as u32 + 1;
    let mut out = Vec::new(alloc);
    push_lines(alloc, &mut out, lines.as_slice())?;
    push_outcome(alloc, &mut out, n, outcome)?;
    Ok(out)
}

// The lines of an outcome; n is the number of the ask that is next.
fn push_outcome(
    alloc: Global,
    out: &mut Vec<u8>,
    n: u32,
    outcome: Outcome,
) -> Result<(), AllocError>
    requires { is_plain outcome ≡ true }
    ensures { OnOk result (out.new.items ≡ out.old.items ++ outcome_lines n outcome) }
{
    match outcome {
        Outcome::Ended(end) => {
            let text = end_line(alloc, &end, n)?;
            out.extend_from_slice(text.as_slice())?;
            out.extend_from_slice(b"\n")?;
            push_outputs(alloc, out, end)
        }
        Outcome::Pattern => out.extend_from_slice(b"pattern\n"),
    }
}

fn push_lines(alloc: Global, out: &mut Vec<u8>, lines: &[Line]) -> Result<(), AllocError>
    ensures { OnOk result (out.new.items ≡ out.old.items ++ ask_lines lines.now) }
{
    for line in lines {
        let text = write_line(alloc, line)?;
        out.extend_from_slice(text.as_bytes())?;
    }
    Ok(())
}

fn write_line(alloc: Global, line: &Line) -> Result<String, AllocError>
    ensures { IfOk result (λ text. string_bytes text ≡ ask_line line.now) }
{
    let n = line.n;
    let mut text = String::new(alloc);
    write!(text, "{n}")?;
    text.push_str(" ")?;
    text.push_str(line.ask.as_str())?;
    push_status(&mut text, line.status)?;
    text.push_str(" ")?;
    text.push_str(how_word(line.how))?;
    text.push_str("\n")?;
    Ok(text)
}

fn push_status(text: &mut String, status: Option<u16>) -> Result<(), AllocError>
    ensures { OnOk result (string_bytes text.new ≡ string_bytes text.old ++ status_text status) }
{
    match status {
        Some(status) => write!(text, " {status}"),
        None => Ok(()),
    }
}

fn how_word(how: How) -> &'static str
    ensures { result.now ≡ how_text how }
{
    match how {
        How::Held => "held",
        How::Sent => "sent",
        How::Served => "served",
        How::Mock => "mock",
    }
}

fn push_outputs(alloc: Global, out: &mut Vec<u8>, end: End) -> Result<(), AllocError>
    requires { has_plain_outputs end ≡ true }
    ensures { OnOk result (out.new.items ≡ out.old.items ++ outputs_line end) }
{
    match end {
        End::Completed(outputs) | End::Broke(outputs) => push_object(alloc, out, outputs),
        End::Out(_) | End::Stuck(_, _) | End::Budget(_) => Ok(()),
    }
}

fn push_object(alloc: Global, out: &mut Vec<u8>, members: Members) -> Result<(), AllocError>
    requires { are_plain members ≡ true }
    ensures { OnOk result (out.new.items ≡ out.old.items ++ line (compact_text (data_of (Object members)))) }
{
    let tree = Json::Object(members);
    match compact(alloc, &tree) {
        Ok(text) => {
            out.extend_from_slice(text.as_slice())?;
            out.extend_from_slice(b"\n")
        }
        Err(CompactFault::FractionUsed) => unreachable!(),
        Err(CompactFault::Memory) => Err(AllocError),
    }
}
