// The sockets of a server.
ghost use Rattle.std.specs.Prelude.{◌≡◌, ◌≢◌, ℕ, [], true, false, IfOk, IsNone, OnErr};
ghost use Rattle.mio.specs.Event.{event_token};
ghost use Rattle.mio.specs.Events.{items};
ghost use Rattle.mgs_model.specs.declared.limits.TheConstants.{SESSION_LIMIT};
ghost use Rattle.mgs_server.specs.Peers.{FindsKey, IsOverAt, IsUnread, WritesAt, WritesDue, WritesOpen, ReadsConn, ReadsAt, Handles, HandlesAll, ServesReady, ClosesLogins, is_login, keys_in, is_conn_of, Moved, MovedByAny, Stepped, Taken, server_with, peers_of, slots_of};

use crate::accept::accept_all;
use crate::peer::{Peer, Reported};
use crate::server_fault::{ListenFault, PollFailed};
use mgs_model::{SESSION_LIMIT, SessionId, Tickets};
use mgs_wire::{PumpedIn, Sessions, Stream};
use mio::event::{Event, Source};
use mio::net::{TcpListener, TcpStream};
use mio::{Events, Interest, Poll, Registry, Token};
use slab::Slab;
use std::alloc::Global;
use std::io::{self, ErrorKind, Read};
use std::net::{Ipv4Addr, Net, SocketAddr};
use std::time::{Clock, Duration, Instant};

// The longest wait of one turn.
const WAIT_MILLIS: u64 = 50;

// The most events of one turn: each connection's and the listener's.
const EVENT_LIMIT: usize = 65;

// The listener's token. No connection has it.
const LISTENER: Token = Token(usize::MAX);

/// A listener, the connections that it took, and what tells which of them are ready.
#[derive(Drop)]
pub(crate) struct Sockets {
    alloc: Global,
    peers: Slab<Peer<TcpStream>>,
    listener: TcpListener,
    // Whether connections may wait of which the listener is not reported again.
    are_left: bool,
    // Whether there may be connections whose login line has not ended.
    are_new: bool,
    poll: Poll,
    events: Events,
}

fn listen_fault(error: io::Error) -> ListenFault {
    match error.kind() {
        ErrorKind::OutOfMemory => ListenFault::Short,
        _ => ListenFault::Port,
    }
}

// The port of a listener for which this one was asked. The system chose it where that is 0.
fn port_of(listener: &TcpListener, port: u16) -> io::Result<u16>
    ensures { IfOk result (λ p. port ≢ 0 → p ≡ port) }
{
    if port != 0 {
        return Ok(port);
    }
    Ok(listener.local_addr()?.port())
}

// A listener on the loopback address, and its port.
fn bind(net: &impl Net, port: u16) -> io::Result<(TcpListener, u16)>
    ensures { IfOk result (λ b. port ≢ 0 → b.1 ≡ port) }
{
    let listener = TcpListener::bind(net, SocketAddr::from((Ipv4Addr::LOCALHOST, port)))?;
    let port = port_of(&listener, port)?;
    Ok((listener, port))
}

// What tells which connections are ready, with the listener among them.
fn watch(net: &impl Net, listener: &mut TcpListener) -> io::Result<Poll> {
    let poll = Poll::new(net)?;
    poll.registry()
        .register(listener, LISTENER, Interest::READABLE)?;
    Ok(poll)
}

// Whether something was reported of a token.
fn is_reported(events: &Events, token: Token) -> bool {
    for event in events {
        if event.token() == token {
            return true;
        }
    }
    false
}

// Takes the connections that wait, where the listener was reported, or some were left. True: some may be left.
fn accept_reported(
    alloc: Global,
    registry: &Registry,
    listener: &TcpListener,
    peers: &mut Slab<Peer<TcpStream>>,
    events: &Events,
    are_left: bool,
) -> bool
    ensures { Taken (peers_of peers.old) (peers_of peers.new) }
{
    if !are_left && !is_reported(events, LISTENER) {
        return false;
    }
    accept_all(alloc, registry, listener, peers)
}

// Reads a connection of which this was reported once. One of which something was read is reported once there is more; where that cannot be
// done it is given up. None: nothing was read, or nothing more is.
fn read_peer<E: Sessions, S: Read + Stream + Source + Drop>(
    registry: &Registry,
    engine: &mut E,
    tickets: &Tickets,
    peer: &mut Peer<S>,
    event: &Event,
) -> Option<Reported>
    ensures steps { Stepped E.does E.live E.pending tickets.now peer.old.conn engine.old peer.new.conn engine.new }
    ensures reads { ReadsConn E.does E.live tickets.now peer.old.conn engine.old peer.new.conn engine.new }
    ensures unread { IsNone result → IsUnread peer.old.conn engine.old peer.new.conn engine.new }
{
    match peer.read(engine, tickets) {
        PumpedIn::Took(taken) => {
            match peer.report_next(registry, event.token(), taken, event.is_read_closed()) {
                Some(reported) => Some(reported),
                None => {
                    peer.give_up(engine);
                    None
                }
            }
        }
        PumpedIn::Idle | PumpedIn::Finished | PumpedIn::Failed => None,
    }
}

// Whether a connection is there that is done with, once what waits for its stream was written.
fn is_done<E: Sessions, S: Read + Stream + Drop>(
    engine: &mut E,
    peers: &mut Slab<Peer<S>>,
    key: usize,
) -> bool
    ensures moved { MovedByAny E.does E.live E.pending (server_with engine.old peers.old) (server_with engine.new peers.new) }
    ensures over { result ≡ true → IsOverAt key (peers_of peers.new) }
    ensures written { WritesOpen E.does E.live E.pending S.answers (peers_of peers.old key) key result (server_with engine.old peers.old) (server_with engine.new peers.new) }
{
    match peers.get_mut(key) {
        Some(peer) => peer.write(engine),
        None => false,
    }
}

// Writes what waits for a connection, and closes it where it is done with.
fn write_one<E: Sessions, S: Read + Stream + Drop>(
    engine: &mut E,
    peers: &mut Slab<Peer<S>>,
    key: usize,
)
    ensures written { WritesAt E.does E.live E.pending S.answers key (server_with engine.old peers.old) (server_with engine.new peers.new) }
    ensures moved { MovedByAny E.does E.live E.pending (server_with engine.old peers.old) (server_with engine.new peers.new) }
{
    if is_done(engine, peers, key) {
        let _ = peers.try_remove(key);
    }
}

// Whether the connection under a key is that of a session.
fn is_of<S: Drop>(peers: &Slab<Peer<S>>, key: usize, id: SessionId) -> bool
    ensures { result ≡ is_conn_of id (peers_of peers.now key) }
{
    match peers.get(key) {
        Some(peer) => peer.is_of(id),
        None => false,
    }
}

// The key of the connection of a session, which is looked for from this key on and then below it. Where there is none it is one that no
// connection has.
fn key_of<S: Drop>(peers: &Slab<Peer<S>>, id: SessionId, from: usize) -> usize
    ensures { FindsKey (peers_of peers.now) id result }
{
    for key in from..peers.capacity() {
        if is_of(peers, key, id) {
            return key;
        }
    }
    for key in 0..from {
        if is_of(peers, key, id) {
            return key;
        }
    }
    peers.capacity()
}

// Writes what waits for the connections of sessions, and closes those that are done with, until none is due.
fn write_due<E: Sessions, S: Read + Stream + Drop>(engine: &mut E, peers: &mut Slab<Peer<S>>)
    ensures due { WritesDue E.does E.live E.pending S.answers E.is_ended (server_with engine.old peers.old) (server_with engine.new peers.new) }
    ensures moved { MovedByAny E.does E.live E.pending (server_with engine.old peers.old) (server_with engine.new peers.new) }
{
    let mut id = 0;
    let mut key = 0;
    while let Some(next) = engine.next_due(id) {
        id = next;
        key = key_of(peers, id, key);
        write_one(engine, peers, key);
    }
}

// Reads the connection of which this was reported once, if there is one.
fn read_one<E: Sessions, S: Read + Stream + Source + Drop>(
    registry: &Registry,
    engine: &mut E,
    tickets: &Tickets,
    peers: &mut Slab<Peer<S>>,
    event: &Event,
)
    ensures reads { ReadsAt E.does E.live tickets.now (event_token event.now).0 (server_with engine.old peers.old) (server_with engine.new peers.new) }
    ensures moved { Moved E.does E.live E.pending tickets.now (server_with engine.old peers.old) (server_with engine.new peers.new) }
{
    match peers.get_mut(event.token().0) {
        Some(peer) => {
            let _reported = read_peer(registry, engine, tickets, peer, event);
        }
        None => {}
    }
}

// Reads the connection of which this was reported once, if there is one, and writes what waits for it, and for the others.
fn serve_one<E: Sessions, S: Read + Stream + Source + Drop>(
    registry: &Registry,
    engine: &mut E,
    tickets: &Tickets,
    peers: &mut Slab<Peer<S>>,
    event: &Event,
)
    ensures served { Handles E.does E.live E.pending S.answers E.is_ended tickets.now (event_token event.now).0 (server_with engine.old peers.old) (server_with engine.new peers.new) }
    ensures moved { Moved E.does E.live E.pending tickets.now (server_with engine.old peers.old) (server_with engine.new peers.new) }
{
    read_one(registry, engine, tickets, peers, event);
    write_one(engine, peers, event.token().0);
    write_due(engine, peers);
}

// Serves each connection that is ready.
fn serve_ready<E: Sessions, S: Read + Stream + Source + Drop>(
    registry: &Registry,
    engine: &mut E,
    tickets: &Tickets,
    peers: &mut Slab<Peer<S>>,
    events: &Events,
)
    ensures served { HandlesAll E.does E.live E.pending S.answers E.is_ended tickets.now (keys_in (items events.now)) (server_with engine.old peers.old) (server_with engine.new peers.new) }
    ensures moved { Moved E.does E.live E.pending tickets.now (server_with engine.old peers.old) (server_with engine.new peers.new) }
{
    for event in events.iter() {
        serve_one(registry, engine, tickets, peers, event);
    }
}

// Whether a connection is there whose login line has not ended in time. It is over then.
fn is_expired<E: Sessions>(
    engine: &mut E,
    peers: &mut Slab<Peer<TcpStream>>,
    key: usize,
    now: Instant,
) -> bool
    ensures moved { MovedByAny E.does E.live E.pending (server_with engine.old peers.old) (server_with engine.new peers.new) }
    ensures over { result ≡ true → IsOverAt key (peers_of peers.new) }
    ensures engine { engine.new ≡ engine.old }
    ensures others { (k : ℕ) → k ≢ key → peers_of peers.new k ≡ peers_of peers.old k }
    ensures late { result ≡ true → is_login (peers_of peers.old key) ≡ true }
    ensures kept { result ≡ false → peers_of peers.new key ≡ peers_of peers.old key }
{
    match peers.get_mut(key) {
        Some(peer) => peer.expire(engine, now),
        None => false,
    }
}

// Closes a connection whose login line has not ended in time.
fn expire_one<E: Sessions>(
    engine: &mut E,
    peers: &mut Slab<Peer<TcpStream>>,
    key: usize,
    now: Instant,
)
    ensures moved { MovedByAny E.does E.live E.pending (server_with engine.old peers.old) (server_with engine.new peers.new) }
    ensures engine { engine.new ≡ engine.old }
    ensures closes { ClosesLogins (peers_of peers.old) (peers_of peers.new) }
{
    if is_expired(engine, peers, key, now) {
        let _ = peers.try_remove(key);
    }
}

// Whether a connection is there whose login line has not ended.
fn is_logging_in(peers: &Slab<Peer<TcpStream>>, key: usize) -> bool {
    match peers.get(key) {
        Some(peer) => peer.is_logging_in(),
        None => false,
    }
}

// Closes each connection whose login line has not ended in time. True: there are others whose line has not ended yet.
fn expire_all<E: Sessions>(engine: &mut E, peers: &mut Slab<Peer<TcpStream>>, now: Instant) -> bool
    ensures moved { MovedByAny E.does E.live E.pending (server_with engine.old peers.old) (server_with engine.new peers.new) }
    ensures engine { engine.new ≡ engine.old }
    ensures closes { ClosesLogins (peers_of peers.old) (peers_of peers.new) }
{
    let mut are_left = false;
    for key in 0..peers.capacity() {
        expire_one(engine, peers, key, now);
        are_left |= is_logging_in(peers, key);
    }
    are_left
}

impl Sockets {
    /// Listens on a port of the loopback address, on one that the system chooses where it is 0: that port beside the sockets. `Port`:
    /// it cannot be had. `Short`: memory was refused.
    pub(crate) fn listen<N: Net>(
        net: &N,
        alloc: Global,
        port: u16,
    ) -> Result<(Sockets, u16), ListenFault>
        ensures peers { IfOk result (λ s. slots_of s.0.peers ≡ []) }
        ensures port { IfOk result (λ s. port ≢ 0 → s.1 ≡ port) }
        ensures events { IfOk result (λ s. items s.0.events ≡ []) }
    {
        let (mut listener, port) = bind(net, port).map_err(listen_fault)?;
        let poll = watch(net, &mut listener).map_err(listen_fault)?;
        let Ok(events) = Events::with_capacity(alloc, EVENT_LIMIT) else {
            return Err(ListenFault::Short);
        };
        let Ok(peers) = Slab::with_capacity(alloc, SESSION_LIMIT) else {
            return Err(ListenFault::Short);
        };
        let sockets = Sockets {
            alloc,
            peers,
            listener,
            are_left: false,
            are_new: false,
            poll,
            events,
        };
        Ok((sockets, port))
    }

    /// Waits at most 50 ms until something is ready. `PollFailed`: the wait failed.
    pub(crate) fn wait(&mut self) -> Result<(), PollFailed>
        ensures peers { self.new.peers ≡ self.old.peers }
        ensures err { OnErr result (items self.new.events ≡ []) }
    {
        let wait = Duration::from_millis(WAIT_MILLIS);
        match self.poll.poll(&mut self.events, Some(wait)) {
            Ok(()) => Ok(()),
            Err(_) => Err(PollFailed),
        }
    }

    /// Takes the connections that wait, reads each that was reported once, and writes what waits for each.
    pub(crate) fn serve<E: Sessions>(&mut self, engine: &mut E, tickets: &Tickets)
        ensures served { ServesReady E.does E.live E.pending ⟦<TcpStream as Stream>⟧.answers E.is_ended tickets.now (keys_in (items self.old.events)) (server_with engine.old self.old.peers) (server_with engine.new self.new.peers) }
        ensures events { self.new.events ≡ self.old.events }
        ensures moved { Moved E.does E.live E.pending tickets.now (server_with engine.old self.old.peers) (server_with engine.new self.new.peers) }
    {
        let registry = self.poll.registry();
        let before = self.peers.len();
        self.are_left = accept_reported(
            self.alloc,
            registry,
            &self.listener,
            &mut self.peers,
            &self.events,
            self.are_left,
        );
        self.are_new |= self.peers.len() > before;
        serve_ready(registry, engine, tickets, &mut self.peers, &self.events);
    }

    /// Closes each connection whose login line has not ended 60 seconds after it came, by the clock. One that cannot be read closes
    /// none, and none is read where each login line has ended.
    pub(crate) fn expire<E: Sessions, C: Clock>(&mut self, engine: &mut E, clock: &C)
        ensures engine { engine.new ≡ engine.old }
        ensures closes { ClosesLogins (peers_of self.old.peers) (peers_of self.new.peers) }
        ensures events { self.new.events ≡ self.old.events }
        ensures moved { MovedByAny E.does E.live E.pending (server_with engine.old self.old.peers) (server_with engine.new self.new.peers) }
    {
        if !self.are_new {
            return;
        }
        match Instant::now(clock) {
            Ok(now) => self.are_new = expire_all(engine, &mut self.peers, now),
            Err(_) => {}
        }
    }
}
