// Conversations over a world in memory.
ghost use Rattle.std.specs.Prelude.{IfOk};
ghost use Rattle.arz_exchange.specs.Slots.{IsUnread};

use crate::requests::{request_of, server};
use arz_cases::{Case, CaseFault, Outcome, flag_word};
use arz_exchange::{ConverseFault, Slot, converse};
use arz_json::{Bytes, Many};
use arz_world::{LinkFault, MemoryWorld, Talk, World};
use std::alloc::{AllocError, Global};

/// A conversation with a peer that sends `pieces`, over a world of which the calls with the numbers in
/// `failing` fail; the connect has the number 1. What it comes to; and how many bytes were sent and
/// received, and whether the close was received.
pub fn conversation(alloc: Global, case: &Case<'_>) -> Result<Outcome, CaseFault> {
    let mut slot = slot_of(alloc, case)?;
    let mut world = world_of(alloc, case)?;
    if !is_connected(alloc, &mut world)? {
        return Ok(Outcome::words(alloc, "not connected")?);
    }
    let came = converse(&mut world, &mut slot);
    told(alloc, &world, &slot, came)
}

// The slot that is ready for the request of a case.
fn slot_of(alloc: Global, case: &Case<'_>) -> Result<Slot, CaseFault>
    ensures { IfOk result (λ slot. IsUnread slot.reading) }
{
    let request = request_of(alloc, case)?;
    let mut slot = Slot::new(alloc)?;
    slot.ready(&request)?;
    Ok(slot)
}

fn world_of(alloc: Global, case: &Case<'_>) -> Result<MemoryWorld, CaseFault> {
    let peers = peers_of(alloc, case)?;
    let failing = Many::from_std(case.numbers(alloc, "failing")?);
    let image = Bytes::from_std(Vec::new(alloc));
    Ok(MemoryWorld::new(alloc, image, peers, failing, None)?)
}

// One peer, that sends the pieces of a case.
fn peers_of(alloc: Global, case: &Case<'_>) -> Result<Many<Many<Bytes>>, CaseFault> {
    let mut peers = Vec::new(alloc);
    peers.push(pieces_of(alloc, case)?)?;
    Ok(Many::from_std(peers))
}

fn pieces_of(alloc: Global, case: &Case<'_>) -> Result<Many<Bytes>, CaseFault> {
    let mut pieces = Vec::new(alloc);
    for piece in case.items("pieces") {
        pieces.push(Bytes::from_std(case.bytes_of(alloc, piece)?))?;
    }
    Ok(Many::from_std(pieces))
}

fn is_connected<W: World>(alloc: Global, world: &mut W) -> Result<bool, CaseFault> {
    match world.connect(&server(alloc)?) {
        Ok(()) => Ok(true),
        Err(LinkFault::Failed) => Ok(false),
        Err(LinkFault::Memory) => Err(CaseFault::Memory),
    }
}

// What a conversation came to, and what is told of its talk.
fn told(
    alloc: Global,
    world: &MemoryWorld,
    slot: &Slot,
    came: Result<(), ConverseFault>,
) -> Result<Outcome, CaseFault> {
    let ended = ended(alloc, slot, came)?;
    let talk = world.talks().as_slice().last();
    let talk = talk_words(alloc, talk.ok_or(CaseFault::Malformed("no talk"))?)?;
    Ok(Outcome::text(format!(in alloc; "{ended}; {talk}")?))
}

fn ended(
    alloc: Global,
    slot: &Slot,
    came: Result<(), ConverseFault>,
) -> Result<String, AllocError> {
    match came {
        Ok(()) => {
            let reader = slot.reader();
            let length = reader.message().len();
            format!(in alloc; "done {length} {}", flag_word(reader.closed()))
        }
        Err(ConverseFault::Link) => String::from_str(alloc, "link"),
        Err(ConverseFault::Peer(fault)) => format!(in alloc; "{fault}"),
    }
}

fn talk_words(alloc: Global, talk: &Talk) -> Result<String, AllocError> {
    let (sent, received) = (talk.sent.as_slice().len(), talk.received.as_slice().len());
    let closed = flag_word(talk.closed);
    format!(in alloc; "{sent} sent, {received} received, {closed}")
}
