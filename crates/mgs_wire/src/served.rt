// What a server over sockets serves.
use crate::sessions::Sessions;

/// Sessions as a server over sockets serves them: those that ended are told at the end of each turn.
pub trait Served: Sessions {
    ghost use Rattle.std.specs.Prelude.{List};
    ghost use Rattle.mgs_wire.specs.Calls.{AreMade, Call};

    // Each session that ended was told: that leads from one state to another.
    ghost tells: { Self → Self → Type 0 };

    // Calls led from a first state to a second one, and those that ended by then were told.
    ghost runs: { Self → List Call → Self → Self → Type 0 };

    /// Tells each session that ended: its slot is free from then on.
    fn tell_ended(&mut self)
        ensures told { tells self.old self.new }
        ensures runs { (first : Self) (calls : List Call) → AreMade Self.does first calls self.old → runs first calls self.old self.new };
}
