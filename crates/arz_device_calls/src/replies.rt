// Replies, in every cutting of their bytes.
use arz_cases::{Case, CaseFault, Outcome, flag_word};
use arz_http::{PeerFault, Reader, ReplyFault, reply as reply_of};
use arz_world::Reply;
use std::alloc::{AllocError, Global};

/// The reply of `bytes`, after which the close comes, to a request that was a HEAD request where
/// `head_only` is true: its length, its status, the length of its body and whether the close ended it, and
/// behind them the body where `body` is true; or the fault and its place. Where `cut` is `every`, the bytes
/// are fed whole, byte by byte, and in two pieces cut at every byte, and all must come to the same.
pub fn reply(alloc: Global, case: &Case<'_>) -> Result<Outcome, CaseFault> {
    let bytes = case.bytes(alloc, "bytes")?;
    let asked = Asked {
        head_only: case.flag("head_only"),
        shows_body: case.flag("body"),
    };
    let whole = in_two(alloc, asked, &bytes, &[])?;
    if case.word("cut") == "every" && !is_alike(alloc, asked, &bytes, &whole)? {
        return Ok(Outcome::words(alloc, "differs in another cutting")?);
    }
    Ok(Outcome {
        text: whole,
        status: None,
    })
}

// What is asked of a reply.
#[derive(Clone, Copy)]
struct Asked {
    // Whether the request was a HEAD request.
    head_only: bool,
    // Whether the body is shown.
    shows_body: bool,
}

// Whether the bytes come to this byte by byte, and in two pieces cut at every byte.
fn is_alike(alloc: Global, asked: Asked, bytes: &[u8], whole: &[u8]) -> Result<bool, CaseFault> {
    for at in 0..bytes.len() {
        let (front, rest) = bytes.split_at(at);
        if in_two(alloc, asked, front, rest)?.as_slice() != whole {
            return Ok(false);
        }
    }
    Ok(singly(alloc, asked, bytes)?.as_slice() == whole)
}

// What two pieces come to, after which the close comes.
fn in_two(alloc: Global, asked: Asked, front: &[u8], rest: &[u8]) -> Result<Vec<u8>, CaseFault> {
    let mut reader = Reader::new(alloc, asked.head_only)?;
    let came = feed_two(&mut reader, front, rest);
    told(alloc, asked, &reader, came)
}

// What the bytes come to one by one, after which the close comes.
fn singly(alloc: Global, asked: Asked, bytes: &[u8]) -> Result<Vec<u8>, CaseFault> {
    let mut reader = Reader::new(alloc, asked.head_only)?;
    let came = feed_singly(&mut reader, bytes);
    told(alloc, asked, &reader, came)
}

fn feed_two(reader: &mut Reader, front: &[u8], rest: &[u8]) -> Result<(), PeerFault> {
    reader.feed(front)?;
    reader.feed(rest)?;
    reader.end()
}

fn feed_singly(reader: &mut Reader, bytes: &[u8]) -> Result<(), PeerFault> {
    for piece in bytes.chunks(1) {
        reader.feed(piece)?;
    }
    reader.end()
}

fn told(
    alloc: Global,
    asked: Asked,
    reader: &Reader,
    came: Result<(), PeerFault>,
) -> Result<Vec<u8>, CaseFault> {
    match came {
        Ok(()) => message(alloc, asked, reader),
        Err(fault) => Ok(format!(in alloc; "{fault}")?.into_bytes()),
    }
}

fn message(alloc: Global, asked: Asked, reader: &Reader) -> Result<Vec<u8>, CaseFault> {
    match reply_of(alloc, asked.head_only, reader.closed(), reader.message()) {
        Ok(reply) => Ok(done(alloc, asked, reader, &reply)?),
        Err(ReplyFault::Memory) => Err(CaseFault::Memory),
        Err(fault) => Ok(format!(in alloc; "of the message: {fault}")?.into_bytes()),
    }
}

fn done(
    alloc: Global,
    asked: Asked,
    reader: &Reader,
    reply: &Reply,
) -> Result<Vec<u8>, AllocError> {
    let parts = parts(alloc, reply)?;
    let closed = flag_word(reader.closed());
    let length = reader.message().len();
    let mut text = format!(in alloc; "done {length} {parts} {closed}")?.into_bytes();
    if asked.shows_body {
        add_body(&mut text, reply.body.as_slice())?;
    }
    Ok(text)
}

// The status, and how many bytes the body has.
fn parts(alloc: Global, reply: &Reply) -> Result<String, AllocError> {
    format!(in alloc; "{} {}", reply.status, reply.body.as_slice().len())
}

fn add_body(text: &mut Vec<u8>, body: &[u8]) -> Result<(), AllocError> {
    text.push(b' ')?;
    text.extend_from_slice(body)
}

/// What `reply` answers of `bytes` with `closed`: the status and the length of the body, or the fault.
pub fn whole_reply(alloc: Global, case: &Case<'_>) -> Result<Outcome, CaseFault> {
    let bytes = case.bytes(alloc, "bytes")?;
    match reply_of(alloc, case.flag("head_only"), case.flag("closed"), &bytes) {
        Ok(reply) => Ok(Outcome::text(parts(alloc, &reply)?)),
        Err(ReplyFault::Memory) => Err(CaseFault::Memory),
        Err(fault) => Ok(Outcome::text(format!(in alloc; "{fault}")?)),
    }
}
