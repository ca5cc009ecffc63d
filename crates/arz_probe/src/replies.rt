//! What is printed of the bytes that a peer sent before it closed.

ghost use Rattle.std.specs.Prelude.{◌≡◌, ◌++◌, ◌<◌, [], codes, decimal, IfOk, IfSome};
ghost use Rattle.arz_world.specs.declared.Reply.{Reply};
ghost use Rattle.arz_http.specs.Messages.{Message};
ghost use Rattle.arz_http.specs.Readings.{taking, is_closed};
ghost use Rattle.arz_probe.specs.Reports.{good, placed};
ghost use Rattle.arz_probe.specs.Journals.{flag_text};
ghost use Rattle.arz_probe.specs.Replies.{cause_text as text_of_cause, message_text, IsReplyReport, HoldsMessage, IsRead};

use crate::journals::flag;
use crate::report::{Report, refused_at};
use arz_http::{Fed, PeerCause, PeerFault, Reader, ReplyFault, laws, reply};
use arz_json::Bytes;
use std::alloc::{AllocError, Global};

/// How many bytes a piece has: a number in decimal digits, above 0.
pub fn piece_length(text: &str) -> Option<usize>
    ensures { IfSome result (λ n. 0 < n) }
{
    text.parse().ok().filter(|n| *n > 0)
}

/// The message at the front of the bytes that a peer sent before it closed: how many bytes it has, its status,
/// how many bytes its body has, and whether the close ended it; or the fault and its place, and status 3. The
/// bytes are read in pieces of `piece` bytes. `head_only` says that the request was a HEAD request.
pub fn reply_report(
    alloc: Global,
    head_only: bool,
    piece: usize,
    came: &[u8],
) -> Result<Report, AllocError>
    requires { 0 < piece }
    ensures { IfOk result (IsReplyReport head_only came.now) }
{
    let mut reader = Reader::new(alloc, head_only)?;
    match read_all(&mut reader, head_only, piece, came) {
        Ok(()) => message_report(alloc, head_only, &reader),
        Err(fault) => refused_at(alloc, cause_text(fault.cause), fault.at),
    }
}

// Gives a reader all that came, up to the message's end, and then the close.
fn read_all(
    reader: &mut Reader,
    head_only: bool,
    piece: usize,
    came: &[u8],
) -> Result<(), PeerFault>
    requires some { 0 < piece }
    requires fresh { reader.old ≡ record { head_only = head_only; bytes = []; seen = taking } }
    ensures { IsRead head_only came.now reader.new result }
{
    laws::one_fault();
    let mut rest = came;
    'pieces: while !rest.is_empty() {
        let (front, behind) = rest.split_at(piece.min(rest.len()));
        match reader.feed(front) {
            Ok(Fed::More) => rest = behind,
            Ok(Fed::Done(_)) => return Ok(()),
            Err(fault) => return Err(fault),
        }
    }
    reader.end()
}

fn message_report(alloc: Global, head_only: bool, reader: &Reader) -> Result<Report, AllocError>
    requires { HoldsMessage head_only reader.now }
    ensures { IfOk result (λ r. (reply : Reply) × Message head_only (is_closed reader.now.seen) reader.now.bytes reply
        × (r ≡ good (message_text reader.now.bytes (is_closed reader.now.seen) reply))) }
{
    laws::one_message();
    let message = reader.message();
    match reply(alloc, head_only, reader.closed(), message) {
        Ok(reply) => {
            let (status, body) = (reply.status, reply.body.as_slice().len());
            message_line(alloc, message.len(), status, body, reader.closed())
        }
        Err(ReplyFault::Memory) => Err(AllocError),
        Err(ReplyFault::Peer(_)) => unreachable!(),
        Err(ReplyFault::NotWhole) => unreachable!(),
    }
}

fn message_line(
    alloc: Global,
    length: usize,
    status: u16,
    body: usize,
    closed: bool,
) -> Result<Report, AllocError>
    ensures { IfOk result (λ r. r ≡ good (placed (placed (placed (codes "done") length) status) body ++ codes " " ++ flag_text closed)) }
{
    let mut text = format!(in alloc; "done {length} {status} {body} ")?.into_bytes();
    text.extend_from_slice(flag(closed))?;
    text.push(b'\n')?;
    Ok(Report {
        text: Bytes::from_std(text),
        status: 0,
    })
}

fn cause_text(cause: PeerCause) -> &'static str
    ensures { result.now ≡ text_of_cause cause }
{
    match cause {
        PeerCause::BadHead => "BadHead",
        PeerCause::HeadTooLarge => "HeadTooLarge",
        PeerCause::BodyTooLarge => "BodyTooLarge",
        PeerCause::BadFraming => "BadFraming",
        PeerCause::TooManyInterim => "TooManyInterim",
        PeerCause::Truncated => "Truncated",
        PeerCause::Switching => "Switching",
    }
}
