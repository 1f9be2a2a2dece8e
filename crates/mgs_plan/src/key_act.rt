// What the keys of a session come to.
ghost use Rattle.std.specs.Prelude.{◌≡◌};

use mgs_model::Command;

/// What a session does: a word of keys that runs no command, or a command and its argument.
#[derive(Clone, Copy)]
pub enum KeyAct {
    /// The word runs no command.
    Unbound,
    /// The command, and its argument where one was typed.
    Run(Command, Option<u32>),
}

/// An argument as a count of characters, lines or rows, or as the number of an entry.
pub fn counted(argument: Option<u32>) -> Option<usize>
    ensures { result ≡ argument }
{
    match argument {
        None => None,
        Some(number) => Some(number as usize),
    }
}
