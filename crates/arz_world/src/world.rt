// A disk of one file and a link to peers, on one clock.
ghost use Rattle.std.specs.Prelude.{◌≡◌, ◌≢◌, ◌≤◌, ◌^◌, length, Err, IfOk, OnOk, IsErrOf, IsTrue};
ghost use Rattle.arz_world.specs.Outside.{HasCause};
ghost use Rattle.arz_world.specs.World.{WorldView, talks, DiskCall, LinkCall, IsWorld, AttachedBy, NoNewImage, IsStable, IsRead, AreTornBy, written, Connects, Sends, Receives};

use crate::Server;
use arz_json::Bytes;
use std::alloc::AllocError;

/// Why a call of the disk was not done.
#[derive(Clone, Copy, Debug, PartialEq, Eq)]
pub enum DiskFault {
    /// The disk failed. The count of its failures has risen.
    Failed,
    /// There was not enough memory.
    Memory,
}

/// Why a call of the link was not done.
#[derive(Clone, Copy, Debug, PartialEq, Eq)]
pub enum LinkFault {
    /// The link failed. The count of its failures has risen.
    Failed,
    /// There was not enough memory.
    Memory,
}

impl From<AllocError> for DiskFault {
    ghost use Rattle.arz_world.specs.declared.world.DiskFault.TheVariants.{Memory};

    ghost from_gives = { λ _ e. e ≡ Memory };

    fn from(_: AllocError) -> Self {
        DiskFault::Memory
    }
}

impl From<AllocError> for LinkFault {
    ghost use Rattle.arz_world.specs.declared.world.LinkFault.TheVariants.{Memory};

    ghost from_gives = { λ _ e. e ≡ Memory };

    fn from(_: AllocError) -> Self {
        LinkFault::Memory
    }
}

/// What was said on one connection.
#[derive(Debug, Drop)]
pub struct Talk {
    /// The server that it was begun with.
    pub server: Server,
    /// The bytes that were sent to it.
    pub sent: Bytes,
    /// The bytes that were received from it.
    pub received: Bytes,
    /// Whether its close was received, after all of these bytes.
    pub closed: bool,
}

/// A disk of one file and a link to peers, on one clock that each call moves by one moment at most. What a
/// call doesn't name stays as it was. Only `attach` and `connect` may want for memory.
pub trait World {
    /// What the world tells, and how often its disk and its link have failed.
    ghost told: { Self → WorldView };

    /// Names the one file, and makes an empty one where there is none.
    fn attach(&mut self, path: &str) -> Result<(), DiskFault>
        ensures path { IsTrue (told self.old).tells → AttachedBy path.now result (told self.old) (told self.new) }
        ensures images { NoNewImage (told self.old) (told self.new) }
        ensures file { (told self.new).file ≡ (told self.old).file }
        ensures call { DiskCall (told self.old) (told self.new) }
        ensures cause { HasCause DiskFault.Failed (told self.old).disk_faults (told self.new).disk_faults result };

    /// The length of the file, in bytes. A file of more than 2^62 bytes is a fault.
    fn size(&mut self) -> Result<u64, DiskFault>
        ensures size { IfOk result (λ size. IsTrue (told self.old).tells → size ≡ length (told self.old).file) }
        ensures limit { IfOk result (λ size. size ≤ 2 ^ 62) }
        ensures path { (told self.new).attached ≡ (told self.old).attached }
        ensures images { NoNewImage (told self.old) (told self.new) }
        ensures file { (told self.new).file ≡ (told self.old).file }
        ensures call { DiskCall (told self.old) (told self.new) }
        ensures cause { HasCause DiskFault.Failed (told self.old).disk_faults (told self.new).disk_faults result }
        ensures no_memory { result ≢ Err DiskFault.Memory };

    /// Reads the bytes from an offset on, as many as there is room for or those up to the end, and says
    /// how many they are.
    fn read(&mut self, at: u64, into: &mut [u8]) -> Result<usize, DiskFault>
        ensures count { IfOk result (λ count. count ≤ length into.new) }
        ensures bytes { IfOk result (λ count. IsTrue (told self.old).tells → IsRead (told self.old).file at into.old into.new count) }
        ensures path { (told self.new).attached ≡ (told self.old).attached }
        ensures images { NoNewImage (told self.old) (told self.new) }
        ensures file { (told self.new).file ≡ (told self.old).file }
        ensures call { DiskCall (told self.old) (told self.new) }
        ensures cause { HasCause DiskFault.Failed (told self.old).disk_faults (told self.new).disk_faults result }
        ensures no_memory { result ≢ Err DiskFault.Memory };

    /// Writes at an offset of the file, over what stands there and past its end. Until a sync a crash may
    /// leave any bytes in the range, also where the write failed.
    fn write(&mut self, at: u64, bytes: &[u8]) -> Result<(), DiskFault>
        requires { IsTrue (told self.old).tells → at ≤ length (told self.old).file }
        ensures written { OnOk result (IsTrue (told self.old).tells → (told self.new).file ≡ written at bytes.now (told self.old).file) }
        ensures images { AreTornBy at (length bytes.now) (told self.old) (told self.new) }
        ensures path { (told self.new).attached ≡ (told self.old).attached }
        ensures call { DiskCall (told self.old) (told self.new) }
        ensures cause { HasCause DiskFault.Failed (told self.old).disk_faults (told self.new).disk_faults result }
        ensures no_memory { result ≢ Err DiskFault.Memory };

    /// Makes sure that from now on a crash leaves what a read gives.
    fn sync(&mut self) -> Result<(), DiskFault>
        ensures stable { OnOk result (IsStable (told self.new)) }
        ensures images { NoNewImage (told self.old) (told self.new) }
        ensures file { (told self.new).file ≡ (told self.old).file }
        ensures path { (told self.new).attached ≡ (told self.old).attached }
        ensures call { DiskCall (told self.old) (told self.new) }
        ensures cause { HasCause DiskFault.Failed (told self.old).disk_faults (told self.new).disk_faults result }
        ensures no_memory { result ≢ Err DiskFault.Memory };

    /// Begins a talk with a server.
    fn connect(&mut self, server: &Server) -> Result<(), LinkFault>
        ensures talk { IsTrue (told self.old).tells → Connects server.now result (talks (told self.old)) (talks (told self.new)) }
        ensures call { LinkCall (told self.old) (told self.new) }
        ensures cause { HasCause LinkFault.Failed (told self.old).link_faults (told self.new).link_faults result };

    /// Sends bytes on the last talk. After a fault a prefix of them was sent.
    fn send(&mut self, bytes: &[u8]) -> Result<(), LinkFault>
        ensures sent { IsTrue (told self.old).tells → Sends bytes.now result (talks (told self.old)) (talks (told self.new)) }
        ensures call { LinkCall (told self.old) (told self.new) }
        ensures cause { HasCause LinkFault.Failed (told self.old).link_faults (told self.new).link_faults result }
        ensures no_memory { result ≢ Err LinkFault.Memory };

    /// Receives bytes on the last talk, at most as many as there is room for, and says how many they are.
    /// None, where there is room, is the peer's close.
    fn receive(&mut self, into: &mut [u8]) -> Result<usize, LinkFault>
        ensures count { IfOk result (λ count. count ≤ length into.new) }
        ensures received { IsTrue (told self.old).tells → Receives into.old into.new result (talks (told self.old)) (talks (told self.new)) }
        ensures call { LinkCall (told self.old) (told self.new) }
        ensures cause { HasCause LinkFault.Failed (told self.old).link_faults (told self.new).link_faults result }
        ensures no_memory { result ≢ Err LinkFault.Memory };

    /// What holds of each world.
    ghost lawful: { (w : Self) → IsWorld (told w) };
}
