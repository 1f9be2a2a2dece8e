//! The latest edits of a text, each with its serial: what undo goes by.
#![tactic(auto)]

ghost use Rattle.std.specs.Prelude.{◌≡◌, ℕ, ◌+◌, ◌-◌, ◌<◌, ◌≤◌, ◌^◌, [], ◌∷◌, IfOk, find, slice_get, take};
ghost use Rattle.std.specs.Option.{option_copied, option_map};
ghost use Rattle.mgs_undo.specs.History.{has_serial};
ghost use Rattle.mgs_undo.specs.Numbered.{item_of};
ghost use Rattle.mgs_model.specs.Plans.{undone_from, undone_to};
ghost use Rattle.mgs_undo.specs.Undoing.{IsEdited, UndosGoBack, TargetsAreKept};

use circular_buffer::HeapCircularBuffer;
use mgs_model::{Short, UNDO_LIMIT};
use std::alloc::Global;
use std::marker::Model;

/// An edit of a text.
#[derive(Drop)]
pub struct Edit {
    /// Where it was.
    pub at: usize,
    /// The characters that it took out.
    pub removed: Vec<char>,
    /// How many characters it put in their place.
    pub added: usize,
}

impl Edit {
    /// From where an undo in a text of `size` characters takes out what this edit put in: its place, or the text's end.
    pub fn undone_from(&self, size: usize) -> usize
        ensures place { (serial : ℕ) → result ≡ undone_from size (item_of serial self.now) }
        ensures within { result ≤ size }
    {
        self.at.min(size)
    }

    /// Up to where an undo in a text of `size` characters takes out what this edit put in: the end of that, or the text's.
    pub fn undone_to(&self, size: usize) -> usize
        ensures place { (serial : ℕ) → result ≡ undone_to size (item_of serial self.now) }
        ensures within { result ≤ size }
        ensures order { undone_from size (item_of 0 self.now) ≤ result }
    {
        match self.at.checked_add(self.added) {
            Some(end) => end.min(size),
            None => size,
        }
    }
}

/// The latest edits of a text, 1,000 at most. Their serials count up by one, and the first edit's is 1.
#[derive(Drop)]
pub struct Record {
    // the latest first
    edits: HeapCircularBuffer<Edit>,
    serial: u64,
}

impl Model for Record {
    ghost use Rattle.std.specs.Prelude.{◌≡◌, ◌≤◌, length};
    ghost use Rattle.mgs_undo.specs.History.{History};

    ghost Value = { History };

    ghost use Rattle.mgs_undo.specs.Numbered.{numbered};

    ghost view = { λ r. record { items = numbered r.serial r.edits.items; serial = r.serial } };

    ghost invariant = { λ r. record { capacity : r.edits.capacity ≡ 1000; fits : length r.edits.items ≤ 1000; counted : length r.edits.items ≤ r.serial } };
}

impl Record {
    /// No edit, in one block with room for 1,000. `Short`: memory was refused.
    pub fn new(alloc: Global) -> Result<Record, Short>
        ensures { IfOk result (λ r. r ≡ record { items = []; serial = 0 }) }
    {
        let edits = HeapCircularBuffer::with_capacity(alloc, UNDO_LIMIT).map_err(|_| Short)?;
        Ok(Record { edits, serial: 0 })
    }

    /// The serial of the last edit: 0 where there was none.
    pub fn serial(&self) -> u64
        ensures { result ≡ self.now.serial }
    {
        self.serial
    }

    /// Keeps an edit under the next serial, and gives back the oldest one where 1,000 were kept: of a buffer's record it makes
    /// that of the edited buffer. It takes no memory.
    /// The caller sees that the last `u64` is not passed.
    pub fn push(&mut self, edit: Edit) -> Option<Edit>
        requires { self.old.serial < 2 ^ 64 - 1 }
        ensures kept { self.new ≡ record { items = item_of (self.old.serial + 1) edit ∷ take 999 self.old.items; serial = self.old.serial + 1 } }
        ensures buffer { IsEdited self.old self.new edit }
        ensures oldest { option_map (item_of (self.old.serial - 999)) result ≡ slice_get self.old.items 999 }
    {
        self.serial += 1;
        self.edits.push_front(edit)
    }

    /// The edit of a serial, where it is kept.
    #[tactic(auto, using(crate::proofs::NumberedLemmas::find_above, crate::proofs::NumberedLemmas::find_numbered))]
    pub fn item(&self, serial: u64) -> Option<&Edit>
        ensures { option_map (item_of serial) (option_copied result) ≡ find (has_serial serial) self.now.items }
    {
        if self.serial < serial {
            return None;
        }
        self.edits.get((self.serial - serial) as usize)
    }
}

/// Undos go back, whoever made the edits: after edits in a row, as many undos in a row give the text before the last so
/// many edits, while every target is kept, and that of 500 undos is. The first target is the last edit, and each further
/// one the edit before. An undo is an edit with an item of its own.
///
/// This is a law about the definitions that the record and the edits of a buffer meet, so this call takes nothing and does
/// nothing.
#[tactic(auto, using(crate::proofs::UndoingLemmas::undos_go_back, crate::proofs::UndoingLemmas::targets_are_kept))]
pub fn undos_go_back()
    ensures back { UndosGoBack }
    ensures kept { TargetsAreKept }
{}
