// Connections with their streams.
ghost use Rattle.std.specs.Prelude.{◌≡◌, ◌<◌, ℕ, [], true, false, List, Some, IfOk, IfSome};
ghost use Rattle.mgs_wire.specs.Connections.{Breaks, Logging_in, is_logging_in, is_over, is_reading};
ghost use Rattle.mgs_wire.specs.Pumps.{Finishes};
ghost use Rattle.mgs_server.specs.declared.peer.TheConstants.{BYTES_AT_ONCE};
ghost use Rattle.mgs_server.specs.Peers.{IsUnread, ReadsPeer, Stepped, WritesPeer, is_closing, is_conn_of, is_taking};

use crate::accept::both_ways;
use mgs_model::{SessionId, Short, Tickets};
use mgs_wire::{Conn, PumpedIn, Sessions, Stream, pump_in_by, pump_out};
use mio::event::Source;
use mio::{Registry, Token};
use std::alloc::Global;
use std::io::Read;
use std::time::{Duration, Instant};

/// The most bytes of one read. What so many keys paint has room in the queue of the largest screen, so that no session falls
/// behind within one read whose terminal takes all that is written to it.
pub const BYTES_AT_ONCE: usize = 6;

// The seconds in which a connection's login line has to end.
const LOGIN_SECS: u64 = 60;

/// A stream is reported once it can be read: that was asked for, or all that was there was read and more can come, which the system
/// reports by itself. Only `Peer::report_next` makes one.
#[derive(Drop)]
pub(crate) struct Reported {
    is_asked: bool,
}

/// A connection and its stream.
#[derive(Drop)]
pub(crate) struct Peer<S: Drop> {
    conn: Conn,
    stream: S,
    // When it came. None: no clock has been read since.
    came: Option<Instant>,
}

impl<S: Drop> Peer<S> {
    /// A connection of which nothing was read. `Short`: memory was refused, and the stream is dropped.
    pub(crate) fn new(alloc: Global, stream: S) -> Result<Peer<S>, Short>
        ensures { IfOk result (λ p. p.conn ≡ Logging_in []) }
    {
        let conn = Conn::new(alloc)?;
        Ok(Peer {
            conn,
            stream,
            came: None,
        })
    }
}

// What reads a stream writes nothing to it, and what writes to it reads nothing: neither has a call for the other.
impl<S: Read + Drop> Peer<S> {
    /// Reads its stream once, at most `BYTES_AT_ONCE` bytes, and hands them on, as `pump_in` does.
    pub(crate) fn read<E: Sessions>(&mut self, engine: &mut E, tickets: &Tickets) -> PumpedIn
        ensures read { ReadsPeer E.does E.live S.remaining tickets.now result self.old engine.old self.new engine.new }
        ensures finished { Finishes E.live result self.old.conn engine.old self.new.conn engine.new }
        ensures steps { Stepped E.does E.live E.pending tickets.now self.old.conn engine.old self.new.conn engine.new }
        ensures still { is_reading E.live self.old.conn engine.old ≡ false → self.new.stream ≡ self.old.stream }
        ensures unread { is_taking result ≡ false → IsUnread self.old.conn engine.old self.new.conn engine.new }
    {
        let mut buf = [0u8; BYTES_AT_ONCE];
        pump_in_by(&mut self.conn, engine, tickets, &mut self.stream, &mut buf)
    }
}

impl<S: Stream + Drop> Peer<S> {
    /// Writes what waits for its stream, as far as that takes it. True: the connection is over, and its stream can be closed. That is
    /// so where its session is not open, where the line of its refusal was written, and where writing failed.
    pub(crate) fn write<E: Sessions>(&mut self, engine: &mut E) -> bool
        ensures steps { (tickets : List (List ℕ × List ℕ)) → Stepped E.does E.live E.pending tickets self.old.conn engine.old self.new.conn engine.new }
        ensures written { WritesPeer E.does E.live E.pending S.answers self.old engine.old self.new engine.new }
        ensures over { result ≡ is_over self.new.conn }
        ensures closing { is_reading E.live self.old.conn engine.old ≡ false → is_closing self.new.conn ≡ true }
    {
        let _ = self.conn.is_finished(engine);
        let _ = pump_out(&mut self.conn, engine, &mut self.stream);
        self.conn.is_over()
    }
}

impl<S: Drop> Peer<S> {
    /// Whether its login opened this session.
    pub(crate) fn is_of(&self, id: SessionId) -> bool
        ensures { result ≡ is_conn_of id (Some self.now.conn) }
    {
        self.conn.session() == Some(id)
    }

    /// Whether its login line has not ended.
    pub(crate) fn is_logging_in(&self) -> bool
        ensures { result ≡ is_logging_in self.now.conn }
    {
        self.conn.is_logging_in()
    }

    /// Gives the connection up, as where reading fails: its session is closed, and nothing more is read or written.
    pub(crate) fn give_up<E: Sessions>(&mut self, engine: &mut E)
        ensures breaks { Breaks E.does self.old.conn engine.old self.new.conn engine.new }
        ensures closing { is_closing self.new.conn ≡ true }
    {
        self.conn.break_off(engine);
    }

    // When it came, which is now where no clock has been read since.
    fn came(&mut self, now: Instant) -> Instant
        ensures { self.new.conn ≡ self.old.conn }
    {
        match self.came {
            Some(came) => came,
            None => {
                self.came = Some(now);
                now
            }
        }
    }

    /// Gives the connection up where its login line has not ended, and it came 60 seconds ago or earlier. True: that is so, and
    /// it is over.
    pub(crate) fn expire<E: Sessions>(&mut self, engine: &mut E, now: Instant) -> bool
        ensures steps { (tickets : List (List ℕ × List ℕ)) → Stepped E.does E.live E.pending tickets self.old.conn engine.old self.new.conn engine.new }
        ensures over { result ≡ true → is_over self.new.conn ≡ true }
        ensures engine { engine.new ≡ engine.old }
        ensures late { result ≡ true → is_logging_in self.old.conn ≡ true }
        ensures kept { result ≡ false → self.new.conn ≡ self.old.conn }
    {
        let came = self.came(now);
        let is_late = now.duration_since(came) >= Duration::from_secs(LOGIN_SECS);
        if is_late && self.conn.is_logging_in() {
            self.give_up(engine);
            return true;
        }
        false
    }
}

impl<S: Source + Drop> Peer<S> {
    /// Has its stream reported once it can be read, after a read that took so many bytes. That is asked for where more may be there: the
    /// read was full, or the peer has closed its side, which is told once. None: it could not be done.
    pub(crate) fn report_next(
        &mut self,
        registry: &Registry,
        token: Token,
        taken: usize,
        is_closed: bool,
    ) -> Option<Reported>
        ensures same { self.new.conn ≡ self.old.conn }
        ensures asked { IfSome result (λ r. r.is_asked ≡ false → (taken < BYTES_AT_ONCE) × (is_closed ≡ false)) }
    {
        if taken < BYTES_AT_ONCE && !is_closed {
            return Some(Reported { is_asked: false });
        }
        match registry.reregister(&mut self.stream, token, both_ways()) {
            Ok(()) => Some(Reported { is_asked: true }),
            Err(_) => None,
        }
    }
}
