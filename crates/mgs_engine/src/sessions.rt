// An engine is a server as connections see it.
use crate::engine::Engine;
use mgs_marks::Marked;
use mgs_model::{Keyed, OpenFault, SessionId};
use mgs_store::Store;
use mgs_wire::{Refusal, Sessions};

impl<T: Marked + Drop, S: Store + Drop> Sessions for Engine<T, S> {
    ghost use Rattle.mgs_model.specs.Events.{is_open};
    ghost use Rattle.mgs_engine.specs.Does.{Does};
    ghost use Rattle.mgs_engine.specs.Serving.{is_to_tell, pending_of};

    ghost does = { Does };

    ghost live = { λ id s. is_open id s.world };

    ghost pending = { pending_of };

    ghost is_ended = { is_to_tell };

    fn open(&mut self, user: &str, rows: usize, cols: usize) -> Result<SessionId, OpenFault> {
        Engine::open(self, user, rows, cols)
    }

    // No session was asked for.
    fn refused(&mut self, _name: &[u8], _cause: Refusal) {}

    fn byte(&mut self, id: SessionId, byte: u8) -> Keyed {
        Engine::byte(self, id, byte)
    }

    fn close(&mut self, id: SessionId) {
        Engine::close(self, id);
    }

    fn is_open(&self, id: SessionId) -> bool {
        Engine::is_open(self, id)
    }

    fn pending(&self, id: SessionId) -> &[u8] {
        Engine::pending(self, id)
    }

    fn took(&mut self, id: SessionId, n: usize) {
        Engine::took(self, id, n);
    }

    fn next_due(&self, after: SessionId) -> Option<SessionId> {
        Engine::next_due(self, after)
    }
}
