// What connections write to.
use std::io::{self, Write};

/// A writer as connections see it: what it answered to each write is its own word, `answers`.
///
/// Each writer is one. A clause over this bound holds whatever a writer answers, so that none can be invented.
pub trait Stream: Write {
    ghost use Rattle.std.specs.Prelude.{ℕ, List, Result};
    ghost use Rattle.std.specs.Io.{WritesAtMost};
    ghost use Rattle.std.specs.Io.KnownBytes.{WriteAppends};
    ghost use Rattle.std.specs.declared.io.Error.{Error};

    // A write of these bytes was answered so, and led from one state to another.
    ghost answers: { Self → List ℕ → Result ℕ Error → Self → Type 0 };

    /// Writes once, as far as that takes the bytes.
    fn put(&mut self, bytes: &[u8]) -> io::Result<usize>
        ensures bound { WritesAtMost result bytes.now }
        ensures bytes { WriteAppends (Self.contents self.old) (Self.contents self.new) result bytes.now }
        ensures answered { answers self.old bytes.now result self.new };
}

impl<W: Write> Stream for W {
    ghost use Rattle.std.specs.Prelude.{⊤};

    ghost answers = { λ old bytes answer new. ⊤ };

    fn put(&mut self, bytes: &[u8]) -> io::Result<usize> {
        self.write(bytes)
    }
}
