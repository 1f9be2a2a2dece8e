ghost use Rattle.std.specs.Prelude.{◌≡◌, ℕ, ◌+◌, ◌-◌, ◌*◌, ◌<◌, ◌≤◌, ◌++◌, ◌↔◌, length, take, drop, replicate, true, false, IsOk, IfOk, OnOk, OnErr, List};
ghost use Rattle.mgs_model.specs.Picture.{IsSize};
ghost use Rattle.mgs_model.specs.Cells.{own_cells};
ghost use Rattle.mgs_term.specs.declared.operation.Operation.TheVariants.{Print};
ghost use Rattle.mgs_term.specs.Screen.{Screen, IsScreen, blank_cell, own_shown, parted, written};
ghost use Rattle.mgs_term.specs.Sequences.{Accepts, has_room, after};
ghost use Rattle.mgs_term.specs.Terminal.{Continues, IsInner, TakesAll, RefusesSome, going_on};
ghost use Rattle.mgs_term.specs.Drawing.{TakesDrawn};
ghost use Rattle.mgs_term.specs.Automaton.{Automaton, IsPlace, PerformsLast, stepped, new_automaton, terminal_of};
ghost use Rattle.mgs_term.specs.declared.place.Place.TheVariants.{Ground, Refused};
ghost use Rattle.mgs_term.specs.declared.operation.Operation.{Operation};

use crate::cell::Cell;
use crate::operation::Operation;
use crate::place::{Next, Place, next_of};
use mgs_model::{RIGHT_HALF, Short, own_columns};
use std::alloc::Global;
use std::marker::Model;
use thiserror::Error;

/// A byte that no accepted sequence has where it came. The terminal takes no byte any more.
#[derive(Clone, Copy, Debug, PartialEq, Eq, Error)]
#[error("a byte that no accepted sequence has there")]
pub struct OutOfProfile;

/// A terminal, with the place in a sequence at which it is.
#[derive(Drop)]
pub(crate) struct Machine {
    rows: usize,
    cols: usize,
    cells: Vec<Cell>,
    row: usize,
    col: usize,
    reversing: bool,
    wrapping: bool,
    place: Place,
}

impl Model for Machine {
    ghost Value = { Automaton };

    ghost view = { λ t. record { screen = record { rows = t.rows; cols = t.cols; cells = t.cells.items; row = t.row; col = t.col; reversing = t.reversing; wrapping = t.wrapping }; place = t.place } };

    ghost invariant = { λ t. IsScreen (record { rows = t.rows; cols = t.cols; cells = t.cells.items; row = t.row; col = t.col; reversing = t.reversing; wrapping = t.wrapping }) × IsPlace t.rows t.cols t.wrapping t.place };
}

fn blank_between(cells: &mut [Cell], from: usize, to: usize)
    requires order { from ≤ to }
    requires within { to ≤ length cells.old }
    ensures { cells.new ≡ take from cells.old ++ (replicate (to - from) blank_cell ++ drop to cells.old) }
{
    cells[from..to].fill(Cell::BLANK);
}

/// The columns that a character fills.
fn columns(c: char) -> usize
    ensures value { result ≡ length (own_cells c) }
    ensures few { result ≤ 2 }
{
    if own_columns(c) == 2 { 2 } else { 1 }
}

/// Blanks a wide character that stands across a column of a row.
#[tactic(auto, unfolding(crate::specs::Screen::parted))]
fn part(cells: &mut [Cell], start: usize, cols: usize, col: usize)
    requires within { start + cols ≤ length cells.old }
    ensures { cells.new ≡ parted start cols col cells.old }
{
    if 0 < col && col < cols && cells[start + col].character == RIGHT_HALF {
        cells[start + col].character = ' ';
        cells[start + col - 1].character = ' ';
    }
}

/// Puts a character into its cells.
fn put(cells: &mut [Cell], at: usize, c: char, reversed: bool)
    requires within { at + length (own_cells c) ≤ length cells.old }
    ensures { cells.new ≡ written at (own_shown reversed c) cells.old }
{
    cells[at] = Cell {
        character: c,
        reversed,
    };
    if own_columns(c) == 2 {
        cells[at + 1] = Cell {
            character: RIGHT_HALF,
            reversed,
        };
    }
}

impl Machine {
    /// Blanks, with the cursor in the first cell, reverse off and wrap on. `Short` is out of memory.
    pub(crate) fn new(alloc: Global, rows: usize, cols: usize) -> Result<Machine, Short>
        requires { IsSize rows cols }
        ensures { IfOk result (λ t. t ≡ new_automaton rows cols) }
    {
        let Ok(cells) = vec![in alloc; Cell::BLANK; rows * cols] else {
            return Err(Short);
        };
        Ok(Machine {
            rows,
            cols,
            cells,
            row: 0,
            col: 0,
            reversing: false,
            wrapping: true,
            place: Place::Ground,
        })
    }

    fn has_room(&self, operation: Operation) -> bool
        ensures { result ≡ has_room self.now.screen operation }
    {
        match operation {
            Operation::Print(c) => self.col + columns(c) <= self.cols,
            Operation::Goto(_, _) => true,
            Operation::Clear => true,
            Operation::Erase => true,
            Operation::Reverse => true,
            Operation::Plain => true,
            Operation::Unwrap => true,
        }
    }

    fn perform(&mut self, operation: Operation)
        requires accepted { Accepts self.old.screen.rows self.old.screen.cols self.old.screen.wrapping operation }
        requires room { has_room self.old.screen operation ≡ true }
        ensures screen { self.new.screen ≡ after operation self.old.screen }
        ensures place { self.new.place ≡ Ground }
    {
        self.place = Place::Ground;
        match operation {
            Operation::Goto(row, col) => {
                self.row = row;
                self.col = col;
            }
            Operation::Clear => {
                let end = self.cells.len();
                blank_between(&mut self.cells, 0, end);
            }
            Operation::Erase => {
                let start = self.row * self.cols;
                part(&mut self.cells, start, self.cols, self.col);
                blank_between(&mut self.cells, start + self.col, start + self.cols);
            }
            Operation::Reverse => self.reversing = true,
            Operation::Plain => self.reversing = false,
            Operation::Unwrap => self.wrapping = false,
            Operation::Print(c) => self.print(c),
        }
    }

    fn print(&mut self, c: char)
        requires { has_room self.old.screen (Print c) ≡ true }
        ensures { self.new ≡ record { screen = after (Print c) self.old.screen; place = self.old.place } }
    {
        let start = self.row * self.cols;
        let end = self.col + columns(c);
        part(&mut self.cells, start, self.cols, self.col);
        part(&mut self.cells, start, self.cols, end);
        put(&mut self.cells, start + self.col, c, self.reversing);
        self.col = end.min(self.cols - 1);
    }

    /// Takes one byte, or refuses it and each one after it.
    pub(crate) fn feed(&mut self, byte: u8) -> Result<(), OutOfProfile>
        ensures stepped { self.new ≡ stepped self.old byte }
        ensures taken { IsOk result ↔ (o : Operation) × (rest : List ℕ) × Continues (terminal_of self.old) byte rest o }
        ensures last { PerformsLast self.old byte self.new }
        ensures inner { IsOk result → IsInner (terminal_of self.old) byte → terminal_of self.new ≡ going_on (terminal_of self.old) byte }
        ensures refused { OnErr result (self.new ≡ record { screen = self.old.screen; place = Refused }) }
    {
        match next_of(self.rows, self.cols, self.wrapping, self.place, byte) {
            Next::Stuck => {
                self.place = Place::Refused;
                Err(OutOfProfile)
            }
            Next::Wait(place) => {
                self.place = place;
                Ok(())
            }
            Next::Perform(operation) => {
                if !self.has_room(operation) {
                    self.place = Place::Refused;
                    return Err(OutOfProfile);
                }
                self.perform(operation);
                Ok(())
            }
        }
    }

    /// Takes bytes up to the first that is refused.
    pub(crate) fn feed_all(&mut self, bytes: &[u8]) -> Result<(), OutOfProfile>
        ensures drawn { TakesDrawn (terminal_of self.old) bytes.now result (terminal_of self.new) }
        ensures ok { OnOk result (TakesAll (terminal_of self.old) bytes.now (terminal_of self.new)) }
        ensures err { OnErr result (RefusesSome (terminal_of self.old) bytes.now (terminal_of self.new)) }
    {
        // By this the loop knows the invariant.
        prove!(self.rows <= usize::MAX);
        for byte in bytes {
            self.feed(*byte)?;
        }
        Ok(())
    }

    /// The number of rows.
    pub(crate) fn rows(&self) -> usize
        ensures { result ≡ self.now.screen.rows }
    {
        self.rows
    }

    /// The number of columns.
    pub(crate) fn cols(&self) -> usize
        ensures { result ≡ self.now.screen.cols }
    {
        self.cols
    }

    /// The cells, row by row.
    pub(crate) fn grid(&self) -> &[Cell]
        ensures cells { result.now ≡ self.now.screen.cells }
        ensures screen { IsScreen self.now.screen }
    {
        &self.cells
    }

    /// The cursor's row and column, counted from 1.
    pub(crate) fn cursor(&self) -> (usize, usize)
        ensures place { result ≡ (self.now.screen.row + 1, self.now.screen.col + 1) }
        ensures screen { IsScreen self.now.screen }
    {
        (self.row + 1, self.col + 1)
    }
}
