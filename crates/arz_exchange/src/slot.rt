// A slot: a request as it is sent, and the reader of its reply.
ghost use Rattle.std.specs.Prelude.{◌≡◌, [], IfOk, OnOk, OnErr, false};
ghost use Rattle.arz_exchange.specs.Slots.{is_head_method, unread, slot_of};

use arz_http::{Reader, write_request};
use arz_json::{Bytes, Text};
use arz_world::Request;
use std::alloc::{AllocError, Global};
use std::marker::Model;

/// How many bytes are received at once, at most.
const PIECE: usize = 16_384;

/// A request as it is sent, and the reader of its reply. It owns all the memory of a conversation. Contracts
/// see it as a `SlotView`.
#[derive(Drop)]
pub struct Slot {
    alloc: Global,
    pub(crate) request: Bytes,
    pub(crate) reader: Reader,
    pub(crate) buffer: Vec<u8>,
}

impl Model for Slot {
    ghost use Rattle.std.specs.Prelude.{◌<◌, length};
    ghost use Rattle.arz_exchange.specs.Slots.{SlotView};

    ghost Value = { SlotView };

    ghost view = { λ s. record { request = s.request; reading = s.reader } };

    ghost invariant = { λ s. 0 < length s.buffer.items };
}

/// Whether a reply to this method has no body (RFC 9110, 9.3.2).
fn is_head(method: &Text) -> bool
    ensures { result ≡ is_head_method method.now }
{
    method.as_str() == "HEAD"
}

impl Slot {
    /// A slot with no bytes to send, of whose reply nothing has come.
    pub fn new(alloc: Global) -> Result<Slot, AllocError>
        ensures { IfOk result (λ slot. slot ≡ record { request = []; reading = unread false }) }
    {
        let mut buffer = Vec::new(alloc);
        buffer.resize(PIECE, 0)?;
        Ok(Slot {
            alloc,
            request: Bytes::from_std(Vec::new(alloc)),
            reader: Reader::new(alloc, false)?,
            buffer,
        })
    }

    /// Makes the slot ready for a request: takes its bytes, and an empty reader for its reply. Where memory
    /// runs out the slot stays as it was.
    pub fn ready(&mut self, request: &Request) -> Result<(), AllocError>
        ensures ready { OnOk result (self.new ≡ slot_of request.now) }
        ensures kept { OnErr result (self.new ≡ self.old) }
    {
        let bytes = write_request(self.alloc, request)?;
        let reader = Reader::new(self.alloc, is_head(&request.method))?;
        self.request = bytes;
        self.reader = reader;
        Ok(())
    }

    /// The reader of the reply.
    pub fn reader(&self) -> &Reader
        ensures { result.now ≡ self.now.reading }
    {
        &self.reader
    }
}
