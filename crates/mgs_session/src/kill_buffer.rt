// What a session has killed.
ghost use Rattle.std.specs.Prelude.{◌≡◌, ◌++◌, [], take, OnOk, OnErr};

use mgs_model::Short;
use std::alloc::Global;
use std::marker::Model;

/// The characters that a session's last run of kills took out. Its commands alone change it.
#[derive(Drop)]
pub struct KillBuffer {
    text: Vec<char>,
}

impl Model for KillBuffer {
    ghost use Rattle.std.specs.Prelude.{ℕ, List};

    ghost Value = { List ℕ };

    ghost view = { λ k. k.text.items };
}

impl KillBuffer {
    /// One with nothing in it.
    pub fn new(alloc: Global) -> KillBuffer
        ensures { result ≡ [] }
    {
        KillBuffer {
            text: Vec::new(alloc),
        }
    }

    /// The characters.
    pub fn as_slice(&self) -> &[char]
        ensures { result.now ≡ self.now }
    {
        self.text.as_slice()
    }

    /// Holds these too, behind the others. `Short`: memory was refused, and it is as it was.
    pub fn extend(&mut self, piece: &[char]) -> Result<(), Short>
        ensures ok { OnOk result (self.new ≡ self.old ++ piece.now) }
        ensures err { OnErr result (self.new ≡ self.old) }
    {
        match self.text.extend_from_slice(piece) {
            Ok(()) => Ok(()),
            Err(_) => Err(Short),
        }
    }

    /// Holds the first `len` characters alone.
    pub fn truncate(&mut self, len: usize)
        ensures { self.new ≡ take len self.old }
    {
        self.text.truncate(len);
    }

    /// Holds other characters.
    pub fn set(&mut self, text: Vec<char>)
        ensures { self.new ≡ text.items }
    {
        self.text = text;
    }
}
