// An engine as a server over sockets serves it.
ghost use Rattle.std.specs.Prelude.{◌≡◌, []};

use crate::engine::Engine;
use mgs_marks::Marked;
use mgs_store::Store;
use mgs_wire::Served;

// Hears of each session that ended.
fn hear_ended<T: Marked + Drop, S: Store + Drop>(engine: &mut Engine<T, S>)
    ensures { engine.new ≡ record engine.old { ended = [] } }
{
    while let Some(_) = engine.ended() {}
}

impl<T: Marked + Drop, S: Store + Drop> Served for Engine<T, S> {
    ghost use Rattle.mgs_engine.specs.Running.{HasTold, Ran};

    ghost tells = { HasTold };

    ghost runs = { Ran };

    #[tactic(auto, using(crate::proofs::Running::has_run))]
    fn tell_ended(&mut self) {
        hear_ended(self);
    }
}
