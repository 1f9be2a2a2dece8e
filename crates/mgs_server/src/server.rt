// The server.
ghost use Rattle.std.specs.Prelude.{◌≡◌, ◌≢◌, [], IfOk, OnOk, OnErr};
ghost use Rattle.mgs_buffers.specs.MarkedBuffer.{AreUnmarked};
ghost use Rattle.mgs_births.specs.Telling.{first_told};
ghost use Rattle.mgs_server.specs.Listening.{at_first, first_world};
ghost use Rattle.mgs_server.specs.Turns.{Turns};

use crate::server_fault::{ListenFault, PollFailed};
use crate::sockets::Sockets;
use mgs_buffers::Buffers;
use mgs_config::Config;
use mgs_core::Core;
use mgs_engine::Engine;
use mgs_gap::GapText;
use mgs_model::{Short, Tickets};
use mgs_policy::Directory;
use mgs_store::Store;
use mgs_wire::{Served, Stream};
use mio::net::TcpStream;
use std::alloc::Global;
use std::marker::Model;
use std::net::Net;
use std::time::Clock;

/// A server of terminals: the sessions that it serves, those who may log in, its connections on the loopback address, and the clock by
/// which logins are timed.
#[derive(Drop)]
pub struct Server<E: Served + Drop, C: Clock + Drop> {
    sessions: E,
    tickets: Tickets,
    port: u16,
    sockets: Sockets,
    clock: C,
}

/// A server of an engine, whose buffers are saved in a store.
pub type EngineServer<S, C> = Server<Engine<GapText, S>, C>;

impl<E: Served + Drop, C: Clock + Drop> Model for Server<E, C> {
    ghost use Rattle.mgs_server.specs.Listening.{Listening};
    ghost use Rattle.mio.specs.Events.{items};
    ghost use Rattle.mgs_server.specs.Peers.{keys_in, slots_of};

    ghost Value = { Listening E };

    ghost view = { λ s. record { serving = s.sessions; peers = slots_of s.sockets.peers; tickets = s.tickets; port = s.port; reported = keys_in (items s.sockets.events) } };
}

// The engine of a configuration's world.
fn engine_of<S: Store + Drop>(
    alloc: Global,
    directory: Directory,
    buffers: Buffers<GapText>,
    store: S,
) -> Result<Engine<GapText, S>, Short>
    requires { AreUnmarked buffers }
    ensures { IfOk result (λ e. e ≡ at_first (first_world directory buffers) (first_told S.failed S.accepted store)) }
{
    let core = Core::new(alloc, directory, buffers, store)?;
    Engine::new(alloc, core)
}

impl<S: Store + Drop, C: Clock + Drop> Server<Engine<GapText, S>, C> {
    /// Listens on a port of the loopback address, on one that the system chooses where it is 0, and serves the world of a configuration.
    /// Its buffers are saved in the store, and its logins are timed by the clock. No session is open, and nothing is served before the first
    /// `turn`.
    ///
    /// # Errors
    ///
    /// `Port`: the port cannot be had. `Short`: memory was refused. Configuration, store and clock are dropped then.
    pub fn listen<R: AllocGlobal + Net>(
        rt: &R,
        port: u16,
        config: Config,
        store: S,
        clock: C,
    ) -> Result<EngineServer<S, C>, ListenFault>
        ensures serving { IfOk result (λ s. s.serving ≡ at_first (first_world config.directory config.buffers) (first_told S.failed S.accepted store)) }
        ensures tickets { IfOk result (λ s. s.tickets ≡ config.tickets) }
        ensures peers { IfOk result (λ s. s.peers ≡ []) }
        ensures port { IfOk result (λ s. port ≢ 0 → s.port ≡ port) }
        ensures reported { IfOk result (λ s. s.reported ≡ []) }
    {
        match engine_of(rt.alloc(), config.directory, config.buffers, store) {
            Ok(engine) => Server::over(rt, port, engine, config.tickets, clock),
            Err(Short) => Err(ListenFault::Short),
        }
    }
}

impl<E: Served + Drop, C: Clock + Drop> Server<E, C> {
    /// Listens on a port of the loopback address, on one that the system chooses where it is 0, and serves these sessions as they are.
    /// Who has one of the tickets is let in, and logins are timed by the clock. Nothing is served before the first `turn`.
    ///
    /// # Errors
    ///
    /// `Port`: the port cannot be had. `Short`: memory was refused. Sessions, tickets and clock are dropped then.
    pub fn over<R: AllocGlobal + Net>(
        rt: &R,
        port: u16,
        sessions: E,
        tickets: Tickets,
        clock: C,
    ) -> Result<Server<E, C>, ListenFault>
        ensures serving { IfOk result (λ s. s.serving ≡ sessions) }
        ensures tickets { IfOk result (λ s. s.tickets ≡ tickets) }
        ensures peers { IfOk result (λ s. s.peers ≡ []) }
        ensures port { IfOk result (λ s. port ≢ 0 → s.port ≡ port) }
        ensures reported { IfOk result (λ s. s.reported ≡ []) }
    {
        let (sockets, port) = Sockets::listen(rt, rt.alloc(), port)?;
        Ok(Server {
            sessions,
            tickets,
            port,
            sockets,
            clock,
        })
    }

    /// What it serves.
    pub fn sessions(&self) -> &E
        ensures { result.now ≡ self.now.serving }
    {
        &self.sessions
    }

    /// The port that it listens on.
    pub fn port(&self) -> u16
        ensures { result ≡ self.now.port }
    {
        self.port
    }

    /// Waits at most 50 ms until something is ready, and does it: takes the connections that wait, then reads each ready one once, in the
    /// order in which they were reported, and after each writes what waits for it, and for every session, as far as its stream takes
    /// that. A connection past the 64th is answered `refused 5 Full` and closed; one whose login was refused is closed when that was
    /// written, and one whose session is over at once. One whose login line has not ended 60 seconds after it came, by the clock, is
    /// closed as well. It then tells the sessions that ended.
    ///
    /// A clock that cannot be read closes nobody. `PollFailed`: the wait failed, and nothing was done.
    pub fn turn(&mut self) -> Result<(), PollFailed>
        ensures ok { OnOk result (Turns E.does E.live E.pending E.is_ended E.tells E.runs ⟦<TcpStream as Stream>⟧.answers self.old self.new) }
        ensures err { OnErr result (self.new ≡ record self.old { reported = [] }) }
    {
        self.sockets.wait()?;
        self.sockets.serve(&mut self.sessions, &self.tickets);
        self.sockets.expire(&mut self.sessions, &self.clock);
        self.sessions.tell_ended();
        Ok(())
    }
}
