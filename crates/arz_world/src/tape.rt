// The record of a world in memory: the calls that changed something, and what they came to.
ghost use Rattle.std.specs.Prelude.{◌≡◌, ◌+◌, ◌≤◌, ◌++◌, ◌||◌, ◌∷◌, [], ℕ, List, length, IfOk, OnOk, OnErr};
ghost use Rattle.arz_world.specs.World.{IsRead, written, fresh, on_last, with_sent, with_received};
ghost use Rattle.arz_world.specs.Replay.{State, state, noted, start, step, replay, filled, crashed};
ghost use Rattle.arz_world.specs.Crash.{IsDiskOf};
ghost use Rattle.arz_world.specs.declared.tape.Call.TheVariants.{Attached, Wrote, Synced, Connected, Sent, Received};

use crate::{Server, Talk};
use arz_json::{Bytes, Many, Text};
use std::alloc::{AllocError, Global};
use std::marker::Model;
use std::mem;

/// A call that changed something in a world in memory.
#[derive(Debug, Drop)]
pub enum Call {
    /// The file was attached by this path.
    Attached(Text),
    /// Bytes were written at an offset.
    Wrote(u64, Bytes),
    /// The writes were synced.
    Synced,
    /// A talk with this server was begun.
    Connected(Server),
    /// Bytes were sent on the last talk.
    Sent(Bytes),
    /// Bytes were received on the last talk, and perhaps its close.
    Received(Bytes, bool),
}

/// A range of a file.
#[derive(Clone, Copy, Debug)]
pub struct Span {
    /// The offset of its first byte.
    pub at: u64,
    /// How many bytes it has.
    pub count: u64,
}

/// What a crash makes of the ranges that were written since the last sync.
#[derive(Clone, Copy, Debug, PartialEq, Eq)]
pub enum Torn {
    /// They are as they were at the sync.
    Old,
    /// They are as they were written.
    New,
    /// Each of their bytes is this one.
    Fill(u8),
}

/// The calls so far, and what they came to. Contracts see it as a `Record`.
#[derive(Drop)]
pub(crate) struct Tape {
    first: Vec<u8>,
    calls: Vec<Call>,
    file: Vec<u8>,
    talks: Many<Talk>,
}

impl Model for Tape {
    ghost use Rattle.std.specs.Prelude.{◌≡◌};
    ghost use Rattle.arz_world.specs.Replay.{Record, replay, start};

    ghost Value = { Record };

    ghost view = { λ t. record { first = t.first.items; calls = t.calls.items } };

    ghost invariant = { λ t. (t.file.items ≡ (replay (start t.first.items) t.calls.items).file)
        × (t.talks ≡ (replay (start t.first.items) t.calls.items).talks) };
}

impl Tape {
    /// A world with this file, of which no call was made.
    pub(crate) fn new(alloc: Global, image: Bytes) -> Result<Tape, AllocError>
        ensures { IfOk result (λ t. t ≡ record { first = image; calls = [] }) }
    {
        let first = image.into_std();
        let file = first.to_vec(alloc)?;
        Ok(Tape {
            first,
            calls: Vec::new(alloc),
            file,
            talks: Many::new(alloc),
        })
    }

    /// The talks so far, in order.
    pub(crate) fn talks(&self) -> &Many<Talk>
        ensures { result.now ≡ (state self.now).talks }
    {
        &self.talks
    }

    /// The length of the file.
    pub(crate) fn size(&self) -> usize
        ensures { result ≡ length (state self.now).file }
    {
        self.file.len()
    }

    /// Reads the bytes from an offset on, as many as there is room for or those up to the end.
    pub(crate) fn read(&self, at: u64, into: &mut [u8]) -> usize
        ensures { IsRead (state self.now).file at into.old into.new result }
    {
        copied(&self.file, at, into)
    }

    /// The file is attached by a path.
    pub(crate) fn attach(&mut self, alloc: Global, path: &str) -> Result<(), AllocError>
        ensures ok { OnOk result (self.new ≡ noted self.old (Attached path.now)) }
        ensures err { OnErr result (self.new ≡ self.old) }
    {
        self.calls
            .push(Call::Attached(Text::from_str(alloc, path)?))?;
        Ok(())
    }

    /// The writes are synced.
    pub(crate) fn sync(&mut self) -> Result<(), AllocError>
        ensures ok { OnOk result (self.new ≡ noted self.old Synced) }
        ensures err { OnErr result (self.new ≡ self.old) }
    {
        self.calls.push(Call::Synced)?;
        Ok(())
    }

    /// Bytes are written at an offset.
    pub(crate) fn write(&mut self, alloc: Global, at: usize, bytes: &[u8]) -> Result<(), AllocError>
        requires { at ≤ length (state self.old).file }
        ensures ok { OnOk result (self.new ≡ noted self.old (Wrote at bytes.now)) }
        ensures err { OnErr result (self.new ≡ self.old) }
    {
        let copy = Bytes::from_std(bytes.to_vec(alloc)?);
        self.calls.push(Call::Wrote(at as u64, copy))?;
        if let Err(e) = overwrite(&mut self.file, at, bytes) {
            self.calls.pop();
            return Err(e);
        }
        Ok(())
    }

    /// A talk with a server begins.
    pub(crate) fn connect(&mut self, alloc: Global, server: &Server) -> Result<(), AllocError>
        ensures ok { OnOk result (self.new ≡ noted self.old (Connected server.now)) }
        ensures err { OnErr result (self.new ≡ self.old) }
    {
        let talk = begun(alloc, server)?;
        self.calls
            .push(Call::Connected(same_server(alloc, server)?))?;
        if let Err(e) = self.talks.push(talk) {
            self.calls.pop();
            return Err(e);
        }
        Ok(())
    }

    /// Bytes are sent on the last talk.
    pub(crate) fn send(&mut self, alloc: Global, bytes: &[u8]) -> Result<(), AllocError>
        ensures ok { OnOk result (self.new ≡ noted self.old (Sent bytes.now)) }
        ensures err { OnErr result (self.new ≡ self.old) }
    {
        let copy = Bytes::from_std(bytes.to_vec(alloc)?);
        self.calls.push(Call::Sent(copy))?;
        if let Err(e) = add_sent(alloc, &mut self.talks, bytes) {
            self.calls.pop();
            return Err(e);
        }
        Ok(())
    }

    /// Bytes are received on the last talk, and perhaps its close.
    pub(crate) fn receive(
        &mut self,
        alloc: Global,
        bytes: &[u8],
        closes: bool,
    ) -> Result<(), AllocError>
        ensures ok { OnOk result (self.new ≡ noted self.old (Received bytes.now closes)) }
        ensures err { OnErr result (self.new ≡ self.old) }
    {
        let copy = Bytes::from_std(bytes.to_vec(alloc)?);
        self.calls.push(Call::Received(copy, closes))?;
        if let Err(e) = add_received(alloc, &mut self.talks, bytes, closes) {
            self.calls.pop();
            return Err(e);
        }
        Ok(())
    }

    /// What a crash leaves of the file.
    pub(crate) fn crash(self, alloc: Global, torn: Torn) -> Result<Bytes, AllocError>
        ensures { IfOk result (λ image. image ≡ crashed torn (state self)) }
    {
        let disk = replayed(alloc, &self.first, &self.calls)?;
        let Disk {
            durable,
            unsynced,
            file,
        } = disk;
        match torn {
            Torn::Old => Ok(Bytes::from_std(durable)),
            Torn::New => Ok(Bytes::from_std(file)),
            Torn::Fill(byte) => {
                let mut image = durable;
                fill(alloc, &mut image, &unsynced, byte)?;
                Ok(Bytes::from_std(image))
            }
        }
    }
}

// Copies what is there from an offset on, as much as there is room for.
pub(crate) fn copied(file: &[u8], at: u64, into: &mut [u8]) -> usize
    ensures { IsRead file.now at into.old into.new result }
{
    if at >= file.len() as u64 {
        return 0;
    }
    let rest = &file[at as usize..];
    let count = rest.len().min(into.len());
    into[..count].copy_from_slice(&rest[..count]);
    count
}

// Writes bytes at an offset of the file, over what stands there and past its end.
pub(crate) fn overwrite(file: &mut Vec<u8>, at: usize, bytes: &[u8]) -> Result<(), AllocError>
    requires { at ≤ length file.old.items }
    ensures ok { OnOk result (file.new.items ≡ written at bytes.now file.old.items) }
    ensures err { OnErr result (file.new.items ≡ file.old.items) }
{
    let over = bytes.len().min(file.len() - at);
    file.extend_from_slice(&bytes[over..])?;
    file[at..at + over].copy_from_slice(&bytes[..over]);
    Ok(())
}

// A talk in which nothing was said.
fn begun(alloc: Global, server: &Server) -> Result<Talk, AllocError>
    ensures { IfOk result (λ t. t ≡ fresh server.now) }
{
    Ok(Talk {
        server: same_server(alloc, server)?,
        sent: Bytes::from_std(Vec::new(alloc)),
        received: Bytes::from_std(Vec::new(alloc)),
        closed: false,
    })
}

// The same server again.
fn same_server(alloc: Global, server: &Server) -> Result<Server, AllocError>
    ensures { IfOk result (λ s. s ≡ server.now) }
{
    Ok(Server {
        host: server.host.copy(alloc)?,
        port: server.port,
        base: server.base.copy(alloc)?,
    })
}

// A talk that stands for one that is being changed.
fn blank(alloc: Global) -> Talk {
    Talk {
        server: Server {
            host: Text::from_std(String::new(alloc)),
            port: 0,
            base: Text::from_std(String::new(alloc)),
        },
        sent: Bytes::from_std(Vec::new(alloc)),
        received: Bytes::from_std(Vec::new(alloc)),
        closed: false,
    }
}

// Adds bytes to their end.
fn extended(alloc: Global, bytes: &mut Bytes, more: &[u8]) -> Result<(), AllocError>
    ensures ok { OnOk result (bytes.new ≡ bytes.old ++ more.now) }
    ensures err { OnErr result (bytes.new ≡ bytes.old) }
{
    let mut items = mem::replace(bytes, Bytes::from_std(Vec::new(alloc))).into_std();
    let added = items.extend_from_slice(more);
    *bytes = Bytes::from_std(items);
    added?;
    Ok(())
}

// Adds bytes to those that were sent on the last talk.
fn add_sent(alloc: Global, talks: &mut Many<Talk>, bytes: &[u8]) -> Result<(), AllocError>
    ensures ok { OnOk result (talks.new ≡ on_last (with_sent bytes.now) talks.old) }
    ensures err { OnErr result (talks.new ≡ talks.old) }
{
    if talks.is_empty() {
        return Ok(());
    }
    let last = talks.len() - 1;
    let mut talk = blank(alloc);
    talks.swap_item(last, &mut talk);
    if let Err(e) = extended(alloc, &mut talk.sent, bytes) {
        talks.swap_item(last, &mut talk);
        return Err(e);
    }
    talks.swap_item(last, &mut talk);
    Ok(())
}

fn either(a: bool, b: bool) -> bool
    ensures { result ≡ (a || b) }
{
    a || b
}

// Adds bytes to those that were received on the last talk, and perhaps its close.
fn add_received(
    alloc: Global,
    talks: &mut Many<Talk>,
    bytes: &[u8],
    closes: bool,
) -> Result<(), AllocError>
    ensures ok { OnOk result (talks.new ≡ on_last (with_received bytes.now closes) talks.old) }
    ensures err { OnErr result (talks.new ≡ talks.old) }
{
    if talks.is_empty() {
        return Ok(());
    }
    let last = talks.len() - 1;
    let mut talk = blank(alloc);
    talks.swap_item(last, &mut talk);
    if let Err(e) = extended(alloc, &mut talk.received, bytes) {
        talks.swap_item(last, &mut talk);
        return Err(e);
    }
    talk.closed = either(talk.closed, closes);
    talks.swap_item(last, &mut talk);
    Ok(())
}

// A disk as a replay of its calls leaves it.
#[derive(Drop)]
pub(crate) struct Disk {
    pub(crate) durable: Vec<u8>,
    pub(crate) unsynced: Vec<Span>,
    pub(crate) file: Vec<u8>,
}

impl Disk {
    fn take(&mut self, call: &Call) -> Result<(), AllocError>
        ensures { OnOk result ((s : State) → IsDiskOf self.old s → IsDiskOf self.new (step s call.now)) }
    {
        match call {
            Call::Wrote(at, bytes) => {
                let at = (*at).min(self.file.len() as u64);
                self.write(at, bytes.as_slice())
            }
            Call::Synced => self.sync(),
            _ => Ok(()),
        }
    }

    fn write(&mut self, at: u64, bytes: &[u8]) -> Result<(), AllocError>
        requires { at ≤ length self.old.file.items }
        ensures durable { OnOk result (self.new.durable.items ≡ self.old.durable.items) }
        ensures unsynced { OnOk result (self.new.unsynced.items ≡ self.old.unsynced.items ++ record { at = at; count = length bytes.now } ∷ []) }
        ensures file { OnOk result (self.new.file.items ≡ written at bytes.now self.old.file.items) }
    {
        overwrite(&mut self.file, at as usize, bytes)?;
        self.unsynced.push(Span {
            at,
            count: bytes.len() as u64,
        })?;
        Ok(())
    }

    fn sync(&mut self) -> Result<(), AllocError>
        ensures durable { OnOk result (self.new.durable.items ≡ self.old.file.items) }
        ensures unsynced { OnOk result (self.new.unsynced.items ≡ []) }
        ensures file { OnOk result (self.new.file.items ≡ self.old.file.items) }
    {
        self.durable.clear();
        self.durable.extend_from_slice(&self.file)?;
        self.unsynced.clear();
        Ok(())
    }
}

// The disk after these calls, one after another.
fn replayed(alloc: Global, first: &[u8], calls: &[Call]) -> Result<Disk, AllocError>
    ensures { IfOk result (λ d. IsDiskOf d (replay (start first.now) calls.now)) }
{
    let mut disk = Disk {
        durable: first.to_vec(alloc)?,
        unsynced: Vec::new(alloc),
        file: first.to_vec(alloc)?,
    };
    for call in calls {
        disk.take(call)?;
    }
    Ok(disk)
}

// Fills ranges with one byte.
fn fill(alloc: Global, image: &mut Vec<u8>, spans: &[Span], byte: u8) -> Result<(), AllocError>
    ensures { OnOk result (image.new.items ≡ filled byte spans.now image.old.items) }
{
    for span in spans {
        let mut bytes = Vec::new(alloc);
        bytes.resize(span.count as usize, byte)?;
        let at = span.at.min(image.len() as u64);
        overwrite(image, at as usize, &bytes)?;
    }
    Ok(())
}
