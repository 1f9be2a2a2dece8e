ghost use Rattle.std.specs.Prelude.{◌≡◌, ℕ, ◌+◌, ◌*◌, ◌↔◌, IsOk, IfOk, OnOk, OnErr, List, [], length};
ghost use Rattle.mgs_model.specs.Picture.{IsSize};
ghost use Rattle.mgs_term.specs.Screen.{IsScreen, blank_screen};
ghost use Rattle.mgs_term.specs.Sequences.{after};
ghost use Rattle.mgs_term.specs.Drawing.{TakesDrawn};
ghost use Rattle.mgs_term.specs.Terminal.{Terminal, Continues, IsInner, TakesAll, RefusesSome, resting, refusing, going_on};
ghost use Rattle.mgs_term.specs.Automaton.{terminal_of};
ghost use Rattle.mgs_term.specs.declared.operation.Operation.{Operation};

use crate::cell::Cell;
use crate::machine::{Machine, OutOfProfile};
use mgs_model::Short;
use std::alloc::Global;
use std::marker::Model;

/// A terminal of a fixed number of rows and columns, by the bytes that came to it.
///
/// It takes a byte exactly where one of the accepted sequences has it (`Operation` lists them), with numbers in
/// decimal and without leading zeros, rows and columns counted from 1 and within the screen. Any other byte is
/// refused, and so is every later one.
#[derive(Drop)]
pub struct Term {
    machine: Machine,
}

impl Model for Term {
    ghost Value = { Terminal };

    ghost view = { λ t. terminal_of t.machine };
}

impl Term {
    /// A terminal of 6 to 64 rows and 20 to 160 columns that shows blanks, with the cursor in the first cell, reverse
    /// off and wrap on.
    ///
    /// # Errors
    ///
    /// `Short` where memory for the cells was refused.
    pub fn new(alloc: Global, rows: usize, cols: usize) -> Result<Term, Short>
        requires { IsSize rows cols }
        ensures { IfOk result (λ t. t ≡ resting (blank_screen rows cols)) }
    {
        let machine = Machine::new(alloc, rows, cols)?;
        Ok(Term { machine })
    }

    /// Takes one byte.
    ///
    /// # Errors
    ///
    /// `OutOfProfile` where no accepted sequence has the byte at this place. Nothing that is shown changes then, and
    /// each later byte is refused.
    pub fn feed(&mut self, byte: u8) -> Result<(), OutOfProfile>
        // It is taken exactly where some accepted sequence has it at this place, and the last byte where there is room.
        ensures taken { IsOk result ↔ (o : Operation) × (rest : List ℕ) × Continues self.old byte rest o }
        // The last byte of a sequence does what the sequence does.
        ensures last { (o : Operation) → Continues self.old byte [] o → self.new ≡ resting (after o self.old.screen) }
        // Any other byte that is taken changes nothing, and the next has to go on after it.
        ensures inner { IsOk result → IsInner self.old byte → self.new ≡ going_on self.old byte }
        // A byte that is refused changes nothing, and each later one is refused.
        ensures refused { OnErr result (self.new ≡ refusing self.old.screen) }
    {
        self.machine.feed(byte)
    }

    /// Takes bytes up to the first that is refused, as `feed` does one after another.
    ///
    /// # Errors
    ///
    /// `OutOfProfile` at the first byte that is refused. What came before it stays done, and each later byte is refused.
    pub fn feed_all(&mut self, bytes: &[u8]) -> Result<(), OutOfProfile>
        ensures ok { OnOk result (TakesAll self.old bytes.now self.new) }
        ensures err { OnErr result (RefusesSome self.old bytes.now self.new) }
        // Bytes that draw, between two sequences, are all taken, and leave the screen to which they lead.
        ensures drawn { TakesDrawn self.old bytes.now result self.new }
    {
        self.machine.feed_all(bytes)
    }

    /// The number of rows.
    pub fn rows(&self) -> usize
        ensures { result ≡ self.now.screen.rows }
    {
        self.machine.rows()
    }

    /// The number of columns.
    pub fn cols(&self) -> usize
        ensures { result ≡ self.now.screen.cols }
    {
        self.machine.cols()
    }

    /// The cells, row by row: as many as rows times columns.
    pub fn grid(&self) -> &[Cell]
        ensures cells { result.now ≡ self.now.screen.cells }
        ensures count { length result.now ≡ self.now.screen.rows * self.now.screen.cols }
        ensures screen { IsScreen self.now.screen }
    {
        self.machine.grid()
    }

    /// The cursor's row and column, counted from 1.
    pub fn cursor(&self) -> (usize, usize)
        ensures place { result ≡ (self.now.screen.row + 1, self.now.screen.col + 1) }
        ensures screen { IsScreen self.now.screen }
    {
        self.machine.cursor()
    }
}
