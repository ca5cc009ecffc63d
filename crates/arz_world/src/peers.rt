// What the peers of a world in memory send.
ghost use Rattle.std.specs.Prelude.{◌≡◌, ◌≤◌, [], length, drop};
ghost use Rattle.arz_world.specs.MemoryWorld.{peer_at, from_next, front, behind};

use arz_json::{Bytes, Many};
use std::marker::Model;

/// What the peer of each connection sends, in pieces, and how far the last connection is. Contracts see it
/// as `PeersInMemory`.
#[derive(Drop)]
pub(crate) struct Peers {
    peers: Many<Many<Bytes>>,
    // the peer of the last connection, its piece that comes next, and how much of this piece has come
    peer: usize,
    piece: usize,
    offset: usize,
}

impl Model for Peers {
    ghost use Rattle.arz_world.specs.MemoryWorld.{PeersInMemory, peer_at, from_next, behind};
    ghost use Rattle.std.specs.Prelude.{drop};

    ghost Value = { PeersInMemory };

    ghost view = { λ p. record { peers = p.peers; to_come = from_next (behind p.offset (drop p.piece (peer_at p.peers p.peer))) } };
}

impl Peers {
    /// The peers of the connections, in order. None of them is connected.
    pub(crate) fn new(peers: Many<Many<Bytes>>) -> Peers
        ensures { result ≡ record { peers = peers; to_come = [] } }
    {
        let none = peers.len();
        Peers {
            peers,
            peer: none,
            piece: 0,
            offset: 0,
        }
    }

    /// The connection with this number begins. The first has the number 0.
    pub(crate) fn connect(&mut self, number: usize)
        ensures { self.new ≡ record { peers = self.old.peers; to_come = from_next (peer_at self.old.peers number) } }
    {
        self.peer = number;
        self.piece = 0;
        self.offset = 0;
    }

    /// The bytes of the piece that comes next; none at the close.
    pub(crate) fn next(&self) -> &[u8]
        ensures { result.now ≡ front self.now.to_come }
    {
        let pieces = pieces_of(&self.peers, self.peer);
        let (piece, offset) = place_of_next(pieces, self.piece, self.offset);
        rest_of(pieces, piece, offset)
    }

    /// So many bytes of the piece that comes next have come.
    pub(crate) fn advance(&mut self, count: usize)
        requires { count ≤ length (front self.old.to_come) }
        ensures { self.new ≡ record { peers = self.old.peers; to_come = from_next (behind count self.old.to_come) } }
    {
        let pieces = pieces_of(&self.peers, self.peer);
        let (piece, offset) = place_of_next(pieces, self.piece, self.offset);
        let offset = moved(pieces, piece, offset, count);
        self.piece = piece;
        self.offset = offset;
    }
}

// The pieces of the peer with a number.
fn pieces_of(peers: &Many<Many<Bytes>>, number: usize) -> &[Bytes]
    ensures { result.now ≡ peer_at peers.now number }
{
    match peers.get(number) {
        Some(pieces) => pieces.as_slice(),
        None => &[],
    }
}

// The place of the first byte from this place on.
fn place_of_next(pieces: &[Bytes], piece: usize, offset: usize) -> (usize, usize)
    ensures { behind result.1 (drop result.0 pieces.now) ≡ from_next (behind offset (drop piece pieces.now)) }
{
    let mut piece = piece;
    let mut offset = offset;
    while piece < pieces.len() && offset >= pieces[piece].as_slice().len() {
        piece += 1;
        offset = 0;
    }
    (piece, offset)
}

// The bytes of a piece from an offset on.
fn rest_of(pieces: &[Bytes], piece: usize, offset: usize) -> &[u8]
    ensures { result.now ≡ front (behind offset (drop piece pieces.now)) }
{
    match pieces.get(piece) {
        Some(bytes) => {
            let bytes = bytes.as_slice();
            if offset < bytes.len() {
                &bytes[offset..]
            } else {
                &[]
            }
        }
        None => &[],
    }
}

// The offset in a piece after more bytes of it have come.
fn moved(pieces: &[Bytes], piece: usize, offset: usize, count: usize) -> usize
    requires { count ≤ length (front (behind offset (drop piece pieces.now))) }
    ensures { behind result (drop piece pieces.now) ≡ behind count (behind offset (drop piece pieces.now)) }
{
    match pieces.get(piece) {
        Some(bytes) if offset < bytes.as_slice().len() => offset + count,
        _ => offset,
    }
}
