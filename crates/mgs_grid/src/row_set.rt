// Some of the rows of a screen.
ghost use Rattle.std.specs.Prelude.{◌≡◌, ◌+◌, ◌<◌, ◌≤◌, ℕ, true, false, slice_set};
ghost use Rattle.mgs_grid.specs.RowSets.{has_row, AreIn, IsNone};

use mgs_model::ROWS_MAX;
use std::marker::Model;

/// Some of the rows of a screen, by their numbers from the top, from 0.
#[derive(Drop)]
pub struct RowSet {
    has: [bool; ROWS_MAX],
    // Whether it may have one.
    some: bool,
}

impl Model for RowSet {
    ghost use Rattle.std.specs.Prelude.{◌≡◌, Bool, false, List};
    ghost use Rattle.mgs_grid.specs.RowSets.{IsNone};

    ghost Value = { List Bool };

    ghost view = { λ s. s.has };

    ghost invariant = { λ s. s.some ≡ false → IsNone s.has };
}

impl RowSet {
    /// No row.
    pub fn none() -> RowSet
        ensures { (i : ℕ) → has_row i result ≡ false }
    {
        RowSet {
            has: [false; ROWS_MAX],
            some: false,
        }
    }

    /// All rows that a screen may have.
    pub fn all() -> RowSet
        ensures { (i : ℕ) → i < ROWS_MAX → has_row i result ≡ true }
    {
        RowSet {
            has: [true; ROWS_MAX],
            some: true,
        }
    }

    /// Whether it is known that there is none.
    pub fn is_none(&self) -> bool
        ensures { result ≡ true → IsNone self.now }
    {
        !self.some
    }

    /// Whether the row is one of them.
    pub fn has(&self, row: usize) -> bool
        requires { row < ROWS_MAX }
        ensures { result ≡ has_row row self.now }
    {
        self.has[row]
    }

    /// One row more.
    pub fn insert(&mut self, row: usize)
        requires { row < ROWS_MAX }
        ensures value { self.new ≡ slice_set self.old row true }
        ensures put { has_row row self.new ≡ true }
        ensures kept { AreIn self.old self.new }
        ensures others { (i : ℕ) → (i ≡ row → ⊥) → has_row i self.new ≡ has_row i self.old }
    {
        self.has[row] = true;
        self.some = true;
    }

    /// More rows: `count` of them, from row `first` on.
    pub fn insert_rows(&mut self, first: usize, count: usize)
        requires { first + count ≤ ROWS_MAX }
        ensures put { (i : ℕ) → first ≤ i → i < first + count → has_row i self.new ≡ true }
        ensures kept { AreIn self.old self.new }
        ensures above { (i : ℕ) → i < first → has_row i self.new ≡ has_row i self.old }
        ensures below { (i : ℕ) → first + count ≤ i → has_row i self.new ≡ has_row i self.old }
    {
        for row in first..first + count {
            self.insert(row);
        }
    }
}
