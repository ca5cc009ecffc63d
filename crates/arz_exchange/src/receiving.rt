// A reply that comes in on the last connection.
ghost use Rattle.std.specs.Prelude.{◌≡◌, ◌+◌, ◌<◌, ◌≤◌, ℕ, List, [], length, take, Err, IfOk, OnOk, IsTrue, false};
ghost use Rattle.arz_world.specs.Outside.{Rose};
ghost use Rattle.arz_world.specs.World.{talks, IsImage, LinkCall};
ghost use Rattle.arz_world.specs.Moments.{EachMoment};
ghost use Rattle.arz_world.specs.declared.messages.Server.{Server};
ghost use Rattle.arz_world.specs.declared.world.Talk.{Talk};
ghost use Rattle.arz_http.specs.Messages.{IsOpenReply};
ghost use Rattle.arz_http.specs.Readings.{taking};
ghost use Rattle.arz_exchange.specs.Slots.{IsUnread};
ghost use Rattle.arz_exchange.specs.Conversing.{LinkRun, Said, Read, Hears, Brings, Heard, Answered};

use crate::ConverseFault;
use arz_http::{Fed, PeerFault, Reader};
use arz_world::World;

/// The bytes at the front.
fn front(bytes: &[u8], count: usize) -> &[u8]
    requires { count ≤ length bytes.now }
    ensures { result.now ≡ take count bytes.now }
{
    &bytes[..count]
}

/// Takes a piece of a reply, of which none is the close. Whether the message is whole with it.
fn hear(reader: &mut Reader, piece: &[u8]) -> Result<bool, PeerFault>
    requires taking { reader.old.seen ≡ taking }
    ensures hears { Hears reader.old.bytes piece.now reader.new result }
    ensures head_only { reader.new.head_only ≡ reader.old.head_only }
{
    if piece.is_empty() {
        reader.end()?;
        return Ok(true);
    }
    match reader.feed(piece) {
        Ok(Fed::More) => Ok(false),
        Ok(Fed::Done(_)) => Ok(true),
        Err(fault) => Err(fault),
    }
}

/// Receives once. Whether the message is whole with what came.
fn receive_piece<W: World>(
    world: &mut W,
    reader: &mut Reader,
    buffer: &mut [u8],
) -> Result<bool, ConverseFault>
    requires taking { reader.old.seen ≡ taking }
    requires room { 0 < length buffer.old }
    ensures brings { Brings reader.old reader.new (W.told world.old) (W.told world.new) result }
    ensures call { LinkCall (W.told world.old) (W.told world.new) }
    ensures link { result ≡ Err ConverseFault.Link → Rose (W.told world.old).link_faults (W.told world.new).link_faults }
    ensures head_only { reader.new.head_only ≡ reader.old.head_only }
{
    let count = world.receive(buffer)?;
    Ok(hear(reader, front(buffer, count))?)
}

/// Receives to the message's end.
pub(crate) fn receive_reply<W: World>(
    world: &mut W,
    reader: &mut Reader,
    buffer: &mut [u8],
) -> Result<(), ConverseFault>
    requires unread { IsUnread reader.old }
    requires room { 0 < length buffer.old }
    ensures answered { IsTrue (W.told world.old).tells → (before : List Talk) (server : Server) (sent : List ℕ)
        → Said before server sent [] false (talks (W.told world.old)) → Answered reader.new before server sent result (talks (W.told world.new)) }
    ensures any_moment { EachMoment (W.told world.old) (W.told world.new) (λ image ts. IsImage (W.told world.old) image × Heard (talks (W.told world.old)) ts) }
    ensures read { Read reader.new result }
    ensures run { LinkRun (W.told world.old) (W.told world.new) }
    ensures calls { (W.told world.new).moment ≤ (W.told world.old).moment + 1114113 }
    ensures link { result ≡ Err ConverseFault.Link → Rose (W.told world.old).link_faults (W.told world.new).link_faults }
    ensures head_only { reader.new.head_only ≡ reader.old.head_only }
{
    'pieces: loop {
        match receive_piece(world, reader, buffer) {
            Ok(true) => return Ok(()),
            Ok(false) => {}
            Err(fault) => return Err(fault),
        }
    }
}
