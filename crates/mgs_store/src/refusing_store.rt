// The store of a server whose buffers have no files.
ghost use Rattle.std.specs.Prelude.{◌≡◌};

use crate::{Store, StoreFault};

/// A store that accepts nothing.
#[derive(Clone, Copy)]
pub struct RefusingStore {
    faults: u64,
}

impl RefusingStore {
    /// A store that was asked for nothing yet.
    pub fn new() -> RefusingStore
        ensures { ⟦<RefusingStore as Store>⟧.failed result ≡ 0 }
    {
        RefusingStore { faults: 0 }
    }
}

impl Store for RefusingStore {
    ghost use Rattle.std.specs.Prelude.{Some, []};

    ghost failed = { λ store. store.faults };

    ghost accepted = { λ store. Some [] };

    fn save(&mut self, name: &str, text: &[char]) -> Result<(), StoreFault> {
        self.faults = self.faults.saturating_add(1);
        Err(StoreFault)
    }

    fn faults(&self) -> u64 {
        self.faults
    }
}
