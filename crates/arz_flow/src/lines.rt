// The lines that tell of asks and of ends.
ghost use Rattle.std.specs.Prelude.{◌≡◌, IfOk, string_bytes};
ghost use Rattle.arz_flow.specs.declared.answers.Ask.{Ask};
ghost use Rattle.arz_flow.specs.Lines.{ask_text as text_of_ask, cause_text as text_of_cause, spot_text as text_of_spot, line_of_end};

use crate::answers::{Ask, End, Spot};
use arz_json::{Bytes, Text};
use arz_request::Cause;
use arz_world::Request;
use std::alloc::{AllocError, Global};

/// The text of a send: `METHOD URL`.
pub fn send_text(alloc: Global, request: &Request) -> Result<Text, AllocError>
    ensures { IfOk result (λ text. text ≡ text_of_ask (Ask.Send request.now)) }
{
    let method = request.method.as_str();
    let host = request.server.host.as_str();
    let port = request.server.port;
    let target = request.target.as_str();
    let text = format!(in alloc; "{method} http://{host}:{port}{target}")?;
    Ok(Text::from_std(text))
}

/// The text of an ask: `METHOD URL` of a send, `wait SECONDS` of a wait.
pub fn ask_text(alloc: Global, ask: &Ask) -> Result<Text, AllocError>
    ensures { IfOk result (λ text. text ≡ text_of_ask ask.now) }
{
    match ask {
        Ask::Send(request) => send_text(alloc, request),
        Ask::Wait(seconds) => {
            let text = format!(in alloc; "wait {seconds}")?;
            Ok(Text::from_std(text))
        }
    }
}

/// The line that tells of an end, without the line feed. `n` is the number of the ask that lacks an
/// answer, counted from 1; only an end for want of an answer shows it.
pub fn end_line(alloc: Global, end: &End, n: u32) -> Result<Bytes, AllocError>
    ensures { IfOk result (λ line. line ≡ line_of_end end.now n) }
{
    let line = match end {
        End::Completed(_) => String::from_str(alloc, "completed")?,
        End::Broke(_) => String::from_str(alloc, "broke")?,
        End::Stuck(cause, spot) => {
            let cause = cause_text(*cause);
            let spot = spot_text(alloc, spot)?;
            let spot = spot.as_str();
            format!(in alloc; "stuck {cause} {spot}")?
        }
        End::Out(ask) => {
            let ask = ask_text(alloc, ask)?;
            let ask = ask.as_str();
            format!(in alloc; "out {n} {ask}")?
        }
        End::Budget(limit) => format!(in alloc; "budget {limit}")?,
    };
    Ok(Bytes::from_std(line.into_bytes()))
}

// The name of a cause.
fn cause_text(cause: Cause) -> &'static str
    ensures { result.now ≡ text_of_cause cause }
{
    match cause {
        Cause::Unresolved => "Unresolved",
        Cause::FractionUsed => "FractionUsed",
        Cause::TooNested => "TooNested",
        Cause::NotSerializable => "NotSerializable",
        Cause::BadHeaderValue => "BadHeaderValue",
        Cause::PayloadTarget => "PayloadTarget",
        Cause::RequestTooLarge => "RequestTooLarge",
        Cause::TooWide => "TooWide",
    }
}

// `WORKFLOW/STEP`, or `WORKFLOW`.
fn spot_text(alloc: Global, spot: &Spot) -> Result<String, AllocError>
    ensures { IfOk result (λ text. string_bytes text ≡ text_of_spot spot.now) }
{
    let mut text = String::from_str(alloc, spot.workflow.as_str())?;
    if let Some(step) = &spot.step {
        text.push_str("/")?;
        text.push_str(step.as_str())?;
    }
    Ok(text)
}
