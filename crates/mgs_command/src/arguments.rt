// What the program is asked to do.
ghost use Rattle.std.specs.Prelude.{◌≡◌, ◌==◌, slice_index, SomeIff};
ghost use Rattle.std.specs.Str.Parse.{digits_value};
ghost use Rattle.mgs_command.specs.Ports.{IsPort};

use std::env::{self, Env};
use std::io;

/// What the program's arguments ask for.
#[derive(Drop)]
pub(crate) enum Task {
    /// `replay`: the script of standard input.
    Replay,
    /// `serve CONFIG PORT`: a server of this configuration on this port; 0 is any.
    Serve { config: String, port: u16 },
    /// Anything else.
    Wrong,
}

// Whether a word begins with a plus, which may stand before a number for std.
fn has_plus(word: &str) -> bool
    ensures { result ≡ (slice_index word.now 0 == 43) }
{
    match word.as_bytes().first() {
        Some(byte) => *byte == b'+',
        None => false,
    }
}

// A port: a decimal number up to 65535.
#[tactic(auto, using(crate::proofs::Signs::signed_is_none, crate::proofs::Signs::read_as_is))]
fn read_port(word: &str) -> Option<u16>
    ensures { SomeIff result (IsPort word.now) (digits_value 10 word.now) }
{
    if has_plus(word) {
        return None;
    }
    match word.parse::<u16>() {
        Ok(port) => Some(port),
        Err(_) => None,
    }
}

// To serve, where both words are there and the second is a port.
fn serve_task(config: Option<String>, port: Option<String>) -> Task {
    let (Some(config), Some(port)) = (config, port) else {
        return Task::Wrong;
    };
    match read_port(port.as_str()) {
        Some(port) => Task::Serve { config, port },
        None => Task::Wrong,
    }
}

/// Reads the program's arguments.
///
/// `OutOfMemory` is out of memory. Any other error is an argument that is not UTF-8.
pub(crate) fn read_task<R: Env + AllocGlobal>(rt: &R) -> io::Result<Task> {
    let mut words = env::args(rt)?.skip(1);
    let Some(first) = words.next() else {
        return Ok(Task::Wrong);
    };
    let task = match first.as_str() {
        "replay" => Task::Replay,
        "serve" => {
            let config = words.next();
            serve_task(config, words.next())
        }
        _ => Task::Wrong,
    };
    if words.next().is_some() {
        return Ok(Task::Wrong);
    }
    Ok(task)
}
