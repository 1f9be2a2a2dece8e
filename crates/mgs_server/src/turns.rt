// What is served turn by turn.
use crate::server::Server;
use crate::server_fault::PollFailed;
use mgs_wire::{Served, Stream};
use mio::net::TcpStream;
use std::time::Clock;

/// A server that is served turn by turn.
///
/// What a turn does, and what one leaves that failed, are the server's own words. A clause over this bound holds whatever they say, so that
/// no turn and no failure can be invented.
pub trait TakesTurns {
    ghost use Rattle.std.specs.Prelude.{◌≡◌, ℕ, OnOk, OnErr};

    // The port that it listens on.
    ghost listens_on: { Self → ℕ };

    // A turn leads from one state to another.
    ghost turns: { Self → Self → Type 0 };

    // A turn that failed leads from one state to another.
    ghost fails: { Self → Self → Type 0 };

    /// The port that it listens on.
    fn port(&self) -> u16
        ensures { result ≡ listens_on self.now };

    /// Waits until something is ready, for a while at most, and does it. `PollFailed`: the wait failed.
    fn turn(&mut self) -> Result<(), PollFailed>
        ensures ok { OnOk result (turns self.old self.new) }
        ensures err { OnErr result (fails self.old self.new) };
}

impl<E: Served + Drop, C: Clock + Drop> TakesTurns for Server<E, C> {
    ghost use Rattle.std.specs.Prelude.{◌≡◌, []};
    ghost use Rattle.mgs_server.specs.Turns.{Turns};

    ghost listens_on = { λ s. s.port };

    ghost turns = { Turns E.does E.live E.pending E.is_ended E.tells E.runs ⟦<TcpStream as Stream>⟧.answers };

    ghost fails = { λ old new. new ≡ record old { reported = [] } };

    fn port(&self) -> u16 {
        Server::port(self)
    }

    fn turn(&mut self) -> Result<(), PollFailed> {
        Server::turn(self)
    }
}
