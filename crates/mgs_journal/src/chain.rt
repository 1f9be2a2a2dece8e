// A journal whose file is followed by another.
ghost use Rattle.std.specs.Prelude.{◌≡◌, OnOk, OnErr};

use crate::{Change, Journal, JournalFault, Snapshot, Told};
use mgs_buffers::Rights;
use mgs_model::Name;
use std::marker::Model;

/// The files that a journal is kept in, one after another.
pub trait Successor<J: Journal> {
    ghost use Rattle.std.specs.Prelude.{◌≡◌, ℕ, List, OnOk, OnErr};

    // The journal goes on in the file that it has, or in another.
    ghost follows: { Self → J → Self → J → Type 0 };

    // It does not go on.
    ghost stops: { Self → J → Self → J → Type 0 };

    /// Has a journal go on in another file if the file that it has is long. It keeps what it kept.
    ///
    /// # Errors
    ///
    /// `JournalFault` if the journal cannot go on in either file.
    fn follow(&mut self, journal: &mut J) -> Result<(), JournalFault>
        ensures rows { OnOk result (J.rows journal.new ≡ J.rows journal.old) }
        ensures texts { OnOk result (J.texts journal.new ≡ J.texts journal.old) }
        ensures taken { OnOk result ((name : List ℕ) → J.taken journal.new name ≡ J.taken journal.old name) }
        ensures follows { OnOk result (follows self.old journal.old self.new journal.new) }
        ensures stops { OnErr result (stops self.old journal.old self.new journal.new) };
}

/// A journal that goes on in another file once the file that it has is long: after a `tick`.
#[derive(Drop)]
pub struct Chain<J: Journal + Drop, F: Successor<J> + Drop> {
    journal: J,
    files: F,
}

impl<J: Journal + Drop, F: Successor<J> + Drop> Model for Chain<J, F> {
    ghost use Rattle.mgs_journal.specs.Chain.{Chained};

    ghost Value = { Chained J F };

    ghost view = { λ c. record { journal = c.journal; files = c.files } };
}

impl<J: Journal + Drop, F: Successor<J> + Drop> Chain<J, F> {
    /// A journal, and the files that it is kept in.
    pub fn new(journal: J, files: F) -> Chain<J, F>
        ensures journal { result.journal ≡ journal }
        ensures files { result.files ≡ files }
    {
        Chain { journal, files }
    }
}

impl<J: Journal + Drop, F: Successor<J> + Drop> Journal for Chain<J, F> {
    ghost use Rattle.mgs_journal.specs.Chain.{FailsOrStops, TakesAndGoesOn};

    ghost rows = { λ c. J.rows c.journal };

    ghost texts = { λ c. J.texts c.journal };

    ghost taken = { λ c. J.taken c.journal };

    ghost does = { TakesAndGoesOn J.does F.follows };

    ghost fails = { FailsOrStops J.does J.fails F.stops };

    fn rights(&self, i: usize) -> Option<Rights<'_>> {
        self.journal.rights(i)
    }

    fn birth(&self, i: usize) -> u64 {
        self.journal.birth(i)
    }

    fn place(&self, name: &Name) -> Option<usize> {
        self.journal.place(name)
    }

    fn text(&self, i: usize) -> Option<Snapshot<'_>> {
        self.journal.text(i)
    }

    fn is_text_due(&self, interval: u64) -> bool {
        self.journal.is_text_due(interval)
    }

    fn is_taken(&self, name: &Name) -> bool {
        self.journal.is_taken(name)
    }

    fn change(&mut self, user: Option<Name>, changes: &[Change<'_>]) -> Result<(), JournalFault> {
        self.journal.change(user, changes)
    }

    fn forget(&mut self, name: &Name) -> Result<(), JournalFault> {
        self.journal.forget(name)
    }

    fn set_text(
        &mut self,
        i: usize,
        body: String,
        modified: bool,
        file: i64,
    ) -> Result<(), JournalFault> {
        self.journal.set_text(i, body, modified, file)
    }

    fn tell(&mut self, told: Told) -> Result<(), JournalFault> {
        self.journal.tell(told)
    }

    fn tick(&mut self) -> Result<(), JournalFault> {
        self.journal.tick()?;
        self.files.follow(&mut self.journal)
    }
}
