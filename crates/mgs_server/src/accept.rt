// Takes connections.
ghost use Rattle.std.specs.Prelude.{◌≡◌, ◌+◌, ◌≤◌, true, OnOk, OnErr};
ghost use Rattle.mio.specs.Interest.{is_readable, is_writable};
ghost use Rattle.slab.specs.Slab.{slab_len};
ghost use Rattle.mgs_model.specs.declared.limits.TheConstants.{SESSION_LIMIT};
ghost use Rattle.mgs_server.specs.Peers.{Taken, peers_of};

use crate::peer::Peer;
use mgs_model::{SESSION_LIMIT, Short};
use mgs_wire::Refusal;
use mio::net::{TcpListener, TcpStream};
use mio::{Interest, Registry, Token};
use slab::Slab;
use std::alloc::Global;
use std::io::{ErrorKind, Write};

// The most connections that are taken in one turn.
const ACCEPTED_AT_ONCE: usize = 64;

/// What a stream is reported for.
pub(crate) fn both_ways() -> Interest
    ensures reads { is_readable result ≡ true }
    ensures writes { is_writable result ≡ true }
{
    Interest::READABLE | Interest::WRITABLE
}

// Tells of a refusal and closes the stream. Where it cannot be written it is lost.
fn refuse(mut stream: TcpStream, refusal: Refusal) {
    let _ = stream.write(refusal.line());
}

// A place for a stream among the connections, or why there is none. The stream is then dropped.
fn place(alloc: Global, peers: &mut Slab<Peer<TcpStream>>, stream: TcpStream) -> Result<(), Short>
    ensures ok { OnOk result (slab_len peers.new ≡ slab_len peers.old + 1) }
    ensures err { OnErr result (slab_len peers.new ≡ slab_len peers.old) }
    ensures taken { Taken (peers_of peers.old) (peers_of peers.new) }
{
    let peer = Peer::new(alloc, stream)?;
    match peers.insert(peer) {
        Ok(_) => Ok(()),
        Err(_) => Err(Short),
    }
}

// A stream becomes a connection, or it is refused.
fn admit(
    alloc: Global,
    registry: &Registry,
    peers: &mut Slab<Peer<TcpStream>>,
    mut stream: TcpStream,
)
    ensures limit { slab_len peers.old ≤ SESSION_LIMIT → slab_len peers.new ≤ SESSION_LIMIT }
    ensures taken { Taken (peers_of peers.old) (peers_of peers.new) }
{
    if peers.len() >= SESSION_LIMIT {
        refuse(stream, Refusal::Full);
        return;
    }
    let token = Token(peers.vacant_key());
    if registry.register(&mut stream, token, both_ways()).is_err() {
        refuse(stream, Refusal::Short);
        return;
    }
    let _ = stream.set_nodelay(true);
    match place(alloc, peers, stream) {
        Ok(()) => {}
        Err(Short) => {}
    }
}

/// Takes the connections that wait, 64 at most. One past the 64th that is open is answered `refused 5 Full` and closed. True: more may
/// wait, since 64 were taken, or one could not be.
pub(crate) fn accept_all(
    alloc: Global,
    registry: &Registry,
    listener: &TcpListener,
    peers: &mut Slab<Peer<TcpStream>>,
) -> bool
    ensures limit { slab_len peers.old ≤ SESSION_LIMIT → slab_len peers.new ≤ SESSION_LIMIT }
    ensures taken { Taken (peers_of peers.old) (peers_of peers.new) }
{
    for _ in 0..ACCEPTED_AT_ONCE {
        match listener.accept() {
            Ok((stream, _)) => admit(alloc, registry, peers, stream),
            Err(e) => return e.kind() != ErrorKind::WouldBlock,
        }
    }
    true
}
