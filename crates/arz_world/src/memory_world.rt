// A world in memory, of which chosen calls fail.
ghost use Rattle.std.specs.Prelude.{◌≡◌, ◌≢◌, ◌+◌, ◌≤◌, ◌<◌, ◌^◌, ◌&&◌, ◌==◌, ◌||◌, not, [], length, take, nat_lt, Ok, Err, IfOk, OnOk, OnErr, IsErrOf, IsTrue, true, false, option_map};
ghost use Rattle.arz_world.specs.MemoryWorld.{WorldInMemory, called, call_fails, is_past as past, disk_failed, disk_refused, link_failed, link_refused, notes, connects, receives, DiskDoes, LinkDoes, is_unconnected, front};
ghost use Rattle.arz_world.specs.Replay.{told_by, told_lawful, state, crashed};
ghost use Rattle.arz_world.specs.World.{IsRead, IsImage};
ghost use Rattle.arz_world.specs.declared.tape.Call.TheVariants.{Attached, Wrote, Synced, Sent};

use crate::calls::is_due;
use crate::peers::Peers;
use crate::tape::{Tape, copied};
use crate::{DiskFault, LinkFault, Server, Talk, Torn, World};
use arz_json::{Bytes, Many};
use std::alloc::{AllocError, Global};
use std::marker::Model;

/// A world in memory, of which chosen calls fail. It keeps a record of its calls, and tells by it the images
/// and the talks of each moment. Contracts see it as a `WorldInMemory`.
#[derive(Drop)]
pub struct MemoryWorld {
    alloc: Global,
    tape: Tape,
    peers: Peers,
    failing: Many<u32>,
    fuse: Option<u32>,
    made: u64,
    disk_faults: u64,
    link_faults: u64,
    refused: u64,
}

impl Model for MemoryWorld {
    ghost use Rattle.arz_world.specs.MemoryWorld.{WorldInMemory};

    ghost Value = { WorldInMemory };

    ghost view = { λ w. record {
      tape = w.tape;
      peers = w.peers;
      failing = w.failing;
      fuse = w.fuse;
      made = w.made;
      disk_faults = w.disk_faults;
      link_faults = w.link_faults;
      refused = w.refused;
    } };
}

fn is_past(fuse: Option<u32>, call: u64) -> bool
    ensures { result ≡ past fuse call }
{
    match fuse {
        Some(fuse) => call > u64::from(fuse),
        None => false,
    }
}

fn is_close(count: usize, room: usize) -> bool
    ensures { result ≡ (count == 0 && not (room == 0)) }
{
    count == 0 && room != 0
}

impl MemoryWorld {
    /// A world with this file. The peer of the first connection sends the pieces of the first item of
    /// `peers`, and so on; empty pieces are passed over, and after the last piece comes the close. Of a
    /// connection past the list only the close comes. The calls with the numbers in `failing` fail, and all
    /// calls with a number above `fuse`; they change nothing. The first call has the number 1.
    pub fn new(
        alloc: Global,
        image: Bytes,
        peers: Many<Many<Bytes>>,
        failing: Many<u32>,
        fuse: Option<u32>,
    ) -> Result<MemoryWorld, AllocError>
        ensures { IfOk result (λ w. w ≡ record {
          tape = record { first = image; calls = [] };
          peers = record { peers = peers; to_come = [] };
          failing = failing;
          fuse = fuse;
          made = 0;
          disk_faults = 0;
          link_faults = 0;
          refused = 0;
        }) }
    {
        Ok(MemoryWorld {
            alloc,
            tape: Tape::new(alloc, image)?,
            peers: Peers::new(peers),
            failing,
            fuse,
            made: 0,
            disk_faults: 0,
            link_faults: 0,
            refused: 0,
        })
    }

    /// The talks so far, one for each connection, in order.
    pub fn talks(&self) -> &Many<Talk>
        ensures { result.now ≡ (state self.now.tape).talks }
    {
        self.tape.talks()
    }

    /// How many calls have failed since a growth of the world's own was refused. Only `attach` and `connect`
    /// answer want of memory as such.
    pub fn refused(&self) -> u64
        ensures { result ≡ self.now.refused }
    {
        self.refused
    }

    /// What a crash leaves of the file after these calls, with the ranges that were written since the last sync
    /// as `torn` says. It is one of the images of this moment.
    pub fn crash(self, torn: Torn) -> Result<Bytes, AllocError>
        ensures exact { IfOk result (λ image. image ≡ crashed torn (state self.tape)) }
        ensures image { IfOk result (IsImage (told_by self.tape self.disk_faults self.link_faults)) }
    {
        self.tape.crash(self.alloc, torn)
    }

    // One more call is made. Whether it fails by its number.
    fn turn(&mut self) -> bool
        ensures made { self.new ≡ called self.old }
        ensures fails { result ≡ call_fails self.old }
        ensures disk_range { self.old.disk_faults < 2 ^ 64 }
        ensures link_range { self.old.link_faults < 2 ^ 64 }
    {
        let _counts = (self.disk_faults, self.link_faults);
        self.made = self.made.saturating_add(1);
        is_due(self.failing.as_slice(), self.made) || is_past(self.fuse, self.made)
    }

    fn disk_failed(&mut self) -> DiskFault
        ensures fault { result ≡ DiskFault.Failed }
        ensures counted { self.new ≡ disk_failed self.old }
    {
        self.disk_faults = self.disk_faults.saturating_add(1);
        DiskFault::Failed
    }

    fn disk_refused(&mut self) -> DiskFault
        ensures fault { result ≡ DiskFault.Failed }
        ensures counted { self.new ≡ disk_refused self.old }
    {
        self.disk_faults = self.disk_faults.saturating_add(1);
        self.refused = self.refused.saturating_add(1);
        DiskFault::Failed
    }

    fn link_failed(&mut self) -> LinkFault
        ensures fault { result ≡ LinkFault.Failed }
        ensures counted { self.new ≡ link_failed self.old }
    {
        self.link_faults = self.link_faults.saturating_add(1);
        LinkFault::Failed
    }

    fn link_refused(&mut self) -> LinkFault
        ensures fault { result ≡ LinkFault.Failed }
        ensures counted { self.new ≡ link_refused self.old }
    {
        self.link_faults = self.link_faults.saturating_add(1);
        self.refused = self.refused.saturating_add(1);
        LinkFault::Failed
    }

    fn try_attach(&mut self, path: &str) -> Result<(), DiskFault>
        ensures exact { DiskDoes self.old (call_fails self.old) (λ _. notes self.old (Attached path.now)) result self.new }
        ensures range { self.old.disk_faults < 2 ^ 64 }
    {
        if self.turn() {
            return Err(self.disk_failed());
        }
        self.tape.attach(self.alloc, path)?;
        Ok(())
    }

    fn try_size(&mut self) -> Result<u64, DiskFault>
        ensures exact { DiskDoes self.old (call_fails self.old || nat_lt (2 ^ 62) (length (state self.old.tape).file)) (λ _. called self.old) result self.new }
        ensures no_memory { result ≢ Err DiskFault.Memory }
        ensures size { IfOk result (λ size. (size ≡ length (state self.old.tape).file) × (size ≤ 2 ^ 62)) }
        ensures range { self.old.disk_faults < 2 ^ 64 }
    {
        if self.turn() {
            return Err(self.disk_failed());
        }
        let size = self.tape.size() as u64;
        if size > 1 << 62 {
            return Err(self.disk_failed());
        }
        Ok(size)
    }

    fn try_read(&mut self, at: u64, into: &mut [u8]) -> Result<usize, DiskFault>
        ensures exact { DiskDoes self.old (call_fails self.old) (λ _. called self.old) result self.new }
        ensures no_memory { result ≢ Err DiskFault.Memory }
        ensures bytes { IfOk result (λ count. IsRead (state self.old.tape).file at into.old into.new count) }
        ensures range { self.old.disk_faults < 2 ^ 64 }
    {
        if self.turn() {
            return Err(self.disk_failed());
        }
        Ok(self.tape.read(at, into))
    }

    fn try_write(&mut self, at: u64, bytes: &[u8]) -> Result<(), DiskFault>
        requires { at ≤ length (state self.old.tape).file }
        ensures exact { DiskDoes self.old (call_fails self.old) (λ _. notes self.old (Wrote at bytes.now)) result self.new }
        ensures no_memory { result ≢ Err DiskFault.Memory }
        ensures range { self.old.disk_faults < 2 ^ 64 }
    {
        if self.turn() {
            return Err(self.disk_failed());
        }
        if self.tape.write(self.alloc, at as usize, bytes).is_err() {
            return Err(self.disk_refused());
        }
        Ok(())
    }

    fn try_sync(&mut self) -> Result<(), DiskFault>
        ensures exact { DiskDoes self.old (call_fails self.old) (λ _. notes self.old Synced) result self.new }
        ensures no_memory { result ≢ Err DiskFault.Memory }
        ensures range { self.old.disk_faults < 2 ^ 64 }
    {
        if self.turn() {
            return Err(self.disk_failed());
        }
        if self.tape.sync().is_err() {
            return Err(self.disk_refused());
        }
        Ok(())
    }

    fn try_connect(&mut self, server: &Server) -> Result<(), LinkFault>
        ensures exact { LinkDoes self.old (call_fails self.old) (λ _. connects self.old server.now) result self.new }
        ensures range { self.old.link_faults < 2 ^ 64 }
    {
        if self.turn() {
            return Err(self.link_failed());
        }
        let number = self.tape.talks().len();
        self.tape.connect(self.alloc, server)?;
        self.peers.connect(number);
        Ok(())
    }

    // One more call of the link is made. Whether it fails by its number or as there is no connection.
    fn link_turn(&mut self) -> bool
        ensures made { self.new ≡ called self.old }
        ensures fails { result ≡ (call_fails self.old || is_unconnected self.old) }
        ensures range { self.old.link_faults < 2 ^ 64 }
    {
        self.turn() || self.tape.talks().len() == 0
    }

    fn try_send(&mut self, bytes: &[u8]) -> Result<(), LinkFault>
        ensures exact { LinkDoes self.old (call_fails self.old || is_unconnected self.old) (λ _. notes self.old (Sent bytes.now)) result self.new }
        ensures no_memory { result ≢ Err LinkFault.Memory }
        ensures range { self.old.link_faults < 2 ^ 64 }
    {
        if self.link_turn() {
            return Err(self.link_failed());
        }
        if self.tape.send(self.alloc, bytes).is_err() {
            return Err(self.link_refused());
        }
        Ok(())
    }

    fn try_receive(&mut self, into: &mut [u8]) -> Result<usize, LinkFault>
        ensures exact { LinkDoes self.old (call_fails self.old || is_unconnected self.old)
            (λ count. receives self.old (take count into.new) (count == 0 && not (length into.old == 0))) result self.new }
        ensures bytes { IfOk result (λ count. IsRead (front self.old.peers.to_come) 0 into.old into.new count) }
        ensures no_memory { result ≢ Err LinkFault.Memory }
        ensures range { self.old.link_faults < 2 ^ 64 }
    {
        if self.link_turn() {
            return Err(self.link_failed());
        }
        let count = copied(self.peers.next(), 0, into);
        let closes = is_close(count, into.len());
        if self
            .tape
            .receive(self.alloc, &into[..count], closes)
            .is_err()
        {
            return Err(self.link_refused());
        }
        self.peers.advance(count);
        Ok(count)
    }
}

impl World for MemoryWorld {
    ghost told = { λ w. told_by w.tape w.disk_faults w.link_faults };

    ghost lawful = { λ w. told_lawful w.tape w.disk_faults w.link_faults };

    fn attach(&mut self, path: &str) -> Result<(), DiskFault> {
        self.try_attach(path)
    }

    fn size(&mut self) -> Result<u64, DiskFault> {
        self.try_size()
    }

    fn read(&mut self, at: u64, into: &mut [u8]) -> Result<usize, DiskFault> {
        self.try_read(at, into)
    }

    fn write(&mut self, at: u64, bytes: &[u8]) -> Result<(), DiskFault> {
        self.try_write(at, bytes)
    }

    fn sync(&mut self) -> Result<(), DiskFault> {
        self.try_sync()
    }

    fn connect(&mut self, server: &Server) -> Result<(), LinkFault> {
        self.try_connect(server)
    }

    fn send(&mut self, bytes: &[u8]) -> Result<(), LinkFault> {
        self.try_send(bytes)
    }

    fn receive(&mut self, into: &mut [u8]) -> Result<usize, LinkFault> {
        self.try_receive(into)
    }
}
