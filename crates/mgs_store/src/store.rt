// What a save asks of a store.
use thiserror::Error;

/// A text could not be stored.
#[derive(Clone, Copy, Debug, PartialEq, Eq, Error)]
#[error("the text could not be stored")]
pub struct StoreFault;

/// Where texts are saved, each under the name of its buffer.
///
/// A store counts its faults, so that a save is never called refused which was not. It may tell what it accepted.
pub trait Store {
    ghost use Rattle.std.specs.Prelude.{◌≡◌, ℕ, List, Option, OnOk, OnErr};
    ghost use Rattle.mgs_model.specs.Events.{Saved};
    ghost use Rattle.mgs_store.specs.Stores.{IsCounted, saved_of, told_more};

    // How many saves it could not do, up to the last `u64`.
    ghost failed: { Self → ℕ };

    // What it accepted, in its order, where it tells that.
    ghost accepted: { Self → Option (List Saved) };

    /// Saves the text of a buffer. `StoreFault`: it could not be saved, and the fault is counted.
    fn save(&mut self, name: &str, text: &[char]) -> Result<(), StoreFault>
        ensures ok { OnOk result (accepted self.new ≡ told_more (saved_of name.now text.now) (accepted self.old)) }
        ensures err { OnErr result (accepted self.new ≡ accepted self.old) }
        ensures counted { OnErr result (IsCounted (failed self.old) (failed self.new)) };

    /// How many saves it could not do, up to the last `u64`.
    fn faults(&self) -> u64
        ensures { result ≡ failed self.now };
}
