//! Serving as the editing server's program does, where the third turn fails.
#![tactic(auto)]

use mgs_command::WRONG_ARGUMENTS;
use mgs_program::serve;
use mgs_server::{PollFailed, TakesTurns};
use std::process::ExitCode;

const PORT: u16 = 4000;

/// A server of so many turns.
#[derive(Drop)]
struct Countdown {
    left: u64,
}

impl TakesTurns for Countdown {
    ghost use Rattle.std.specs.Prelude.{◌≡◌, ◌+◌};

    ghost listens_on = { λ s. 4000 };

    ghost turns = { λ old new. old.left ≡ new.left + 1 };

    ghost fails = { λ old new. (old.left ≡ 0) × (new ≡ old) };

    fn port(&self) -> u16 {
        PORT
    }

    fn turn(&mut self) -> Result<(), PollFailed> {
        if self.left == 0 {
            return Err(PollFailed);
        }
        self.left -= 1;
        Ok(())
    }
}

// It ends by the status of wrong arguments where a turn is left.
fn main(rt: HostRuntime) -> ExitCode {
    let mut server = Countdown { left: 2 };
    let status = serve(&rt, &mut server);
    if server.left > 0 {
        return ExitCode::from(WRONG_ARGUMENTS);
    }
    ExitCode::from(status)
}
