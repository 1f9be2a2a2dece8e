// Where the tests and the program save.
use mgs_store::{Store, StoreFault};

/// Which saves a store takes.
#[derive(Clone, Copy)]
pub(crate) enum Takes {
    /// None.
    Nothing,
    /// All but the one that so many come before.
    AllBut(usize),
    /// This text of the buffer `notes`.
    Text(&'static str),
}

/// A store that takes some saves and keeps nothing.
#[derive(Clone, Copy)]
pub(crate) struct Shelf {
    takes: Takes,
    saves: usize,
    faults: u64,
}

fn is_text(text: &[char], wanted: &str) -> bool {
    for (at, c) in wanted.chars().enumerate() {
        if text.get(at) != Some(&c) {
            return false;
        }
    }
    text.len() == wanted.chars().count()
}

impl Shelf {
    pub(crate) fn new(takes: Takes) -> Shelf {
        Shelf {
            takes,
            saves: 0,
            faults: 0,
        }
    }

    fn is_taken(&self, name: &str, text: &[char]) -> bool {
        match self.takes {
            Takes::Nothing => false,
            Takes::AllBut(before) => self.saves != before,
            Takes::Text(wanted) => name == "notes" && is_text(text, wanted),
        }
    }
}

impl Store for Shelf {
    ghost use Rattle.std.specs.Prelude.{None};

    ghost failed = { λ store. store.faults };

    ghost accepted = { λ store. None };

    fn save(&mut self, name: &str, text: &[char]) -> Result<(), StoreFault> {
        let is_taken = self.is_taken(name, text);
        self.saves = self.saves.saturating_add(1);
        if is_taken {
            return Ok(());
        }
        self.faults = self.faults.saturating_add(1);
        Err(StoreFault)
    }

    fn faults(&self) -> u64 {
        self.faults
    }
}
