// A request goes out on the last connection, and its reply comes back.
ghost use Rattle.std.specs.Prelude.{◌≡◌, ◌+◌, ◌≤◌, List, [], Err, IsTrue, false};
ghost use Rattle.arz_world.specs.Outside.{Rose};
ghost use Rattle.arz_world.specs.World.{talks, IsImage};
ghost use Rattle.arz_world.specs.Moments.{EachMoment};
ghost use Rattle.arz_world.specs.declared.messages.Server.{Server};
ghost use Rattle.arz_world.specs.declared.world.Talk.{Talk};
ghost use Rattle.arz_exchange.specs.Slots.{IsUnread};
ghost use Rattle.arz_exchange.specs.Conversing.{LinkRun, Said, UnderWay, Conversed, Read};

use crate::Slot;
use crate::receiving::receive_reply;
use arz_http::PeerFault;
use arz_world::{LinkFault, World};
use thiserror::Error;

/// Why a conversation brought no message.
#[derive(Clone, Copy, Debug, PartialEq, Eq, Error)]
pub enum ConverseFault {
    /// The link failed. The count of its failures has risen.
    #[error("the link failed")]
    Link,
    /// The bytes of the peer have a fault.
    #[error("{0}")]
    Peer(PeerFault),
}

impl From<LinkFault> for ConverseFault {
    ghost use Rattle.arz_exchange.specs.Conversing.{of_link};

    ghost from_gives = { λ f e. e ≡ of_link f };

    fn from(fault: LinkFault) -> Self {
        match fault {
            LinkFault::Failed | LinkFault::Memory => ConverseFault::Link,
        }
    }
}

impl From<PeerFault> for ConverseFault {
    ghost use Rattle.arz_exchange.specs.declared.conversation.ConverseFault.TheVariants.{Peer};

    ghost from_gives = { λ f e. e ≡ Peer f };

    fn from(fault: PeerFault) -> Self {
        ConverseFault::Peer(fault)
    }
}

/// Sends the slot's bytes on the last connection, and receives to the message's end, by at most 1,114,113
/// calls of `receive`. It takes no memory. The slot must be ready, and nothing was sent or received on the
/// connection, where the world tells. Nothing is received before all bytes were sent. Afterwards the slot's
/// reader holds the message, or the bytes before the fault.
pub fn converse<W: World>(world: &mut W, slot: &mut Slot) -> Result<(), ConverseFault>
    requires { IsUnread slot.old.reading }

    // What was said on the last connection, and that the talks before it stay.
    ensures conversed { IsTrue (W.told world.old).tells → (before : List Talk) (server : Server)
        → Said before server [] [] false (talks (W.told world.old))
        → Conversed slot.old.request slot.new.reading before server result (talks (W.told world.new)) }
    // At each moment of it some of the request was sent, or all of it and some bytes were received.
    ensures any_moment { EachMoment (W.told world.old) (W.told world.new) (λ image ts. IsImage (W.told world.old) image
        × ((before : List Talk) (server : Server) → Said before server [] [] false (talks (W.told world.old)) → UnderWay slot.old.request before server ts)) }
    ensures read { Read slot.new.reading result }
    ensures run { LinkRun (W.told world.old) (W.told world.new) }
    ensures calls { (W.told world.new).moment ≤ (W.told world.old).moment + 1114114 }
    ensures link { result ≡ Err ConverseFault.Link → Rose (W.told world.old).link_faults (W.told world.new).link_faults }
    ensures request { slot.new.request ≡ slot.old.request }
    ensures head_only { slot.new.reading.head_only ≡ slot.old.reading.head_only }
{
    world.send(slot.request.as_slice())?;
    receive_reply(world, &mut slot.reader, &mut slot.buffer)
}
