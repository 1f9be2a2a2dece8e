// A plain text, and a slab of the positions in it.
ghost use Rattle.std.specs.Prelude.{◌≡◌, ◌≢◌, ℕ, ◌+◌, ◌<◌, ◌≤◌, ◌^◌, ⊤, Some, None, length, slice_set, IsSome, IfOk, OnErr};
ghost use Rattle.std.specs.Option.{option_map};
ghost use Rattle.mgs_model.specs.Text.{shift, shift_all};
ghost use Rattle.slab.specs.Slab.{get};
ghost use Rattle.mgs_marks.specs.Marks.{mark_in, or_zero};

use crate::Marked;
use mgs_model::{MarkId, Short};
use mgs_text::{PlainText, Text};
use slab::Slab;
use std::alloc::Global;
use std::marker::Model;

/// A text as a vector of its characters, and its marks. An edit moves the characters after it and looks at each mark.
#[derive(Drop)]
pub struct PlainMarked {
    text: PlainText,
    slots: Slab<usize>,
}

impl Model for PlainMarked {
    ghost use Rattle.std.specs.Prelude.{ℕ, ◌≤◌, length};
    ghost use Rattle.mgs_marks.specs.Marks.{MarkedText, position_in};

    ghost Value = { MarkedText };

    ghost view = { λ m. record { text = m.text; marks = m.slots.slots } };

    ghost invariant = { λ m. (id : ℕ) → position_in m.slots.slots id ≤ length m.text };
}

fn shifted(m: usize, a: usize, b: usize, n: usize) -> usize
    requires order { a ≤ b }
    requires fits { m + n < 2 ^ 64 }
    ensures { result ≡ shift a b n m }
{
    if m <= a {
        m
    } else if m < b {
        a
    } else {
        m - (b - a) + n
    }
}

// Moves the mark of one slot, if it is in use.
fn shift_slot(slots: &mut Slab<usize>, id: usize, a: usize, b: usize, n: usize)
    requires order { a ≤ b }
    requires fits { or_zero (get slots.old id) + n < 2 ^ 64 }
    ensures moved { get slots.new id ≡ option_map (shift a b n) (get slots.old id) }
    ensures others { (k : ℕ) → k ≢ id → get slots.new k ≡ get slots.old k }
    ensures len { length slots.new.slots ≡ length slots.old.slots }
{
    if let Some(p) = slots.get_mut(id) {
        *p = shifted(*p, a, b, n);
    }
}

fn shift_slots(slots: &mut Slab<usize>, a: usize, b: usize, n: usize)
    requires order { a ≤ b }
    requires fits { (id : ℕ) → or_zero (get slots.old id) + n < 2 ^ 64 }
    ensures { slots.new.slots ≡ shift_all a b n slots.old.slots }
{
    for id in 0..slots.capacity() {
        shift_slot(slots, id, a, b, n);
    }
}

#[tactic(auto, using(crate::proofs::Moves::mark_in_get))]
fn add_slot(slots: &mut Slab<usize>, p: usize) -> Result<usize, Short>
    ensures free { IfOk result (λ id. mark_in slots.old.slots id ≡ None) }
    ensures added { IfOk result (λ id. mark_in slots.new.slots id ≡ Some p) }
    ensures others { IfOk result (λ id. (k : ℕ) → k ≢ id →
        mark_in slots.new.slots k ≡ mark_in slots.old.slots k) }
    ensures err { OnErr result (slots.new.slots ≡ slots.old.slots) }
{
    slots.reserve(1).map_err(|_| Short)?;
    Ok(slots.insert_reserved(p))
}

fn set_slot(slots: &mut Slab<usize>, id: usize, p: usize)
    requires { IsSome (get slots.old id) }
    ensures { slots.new.slots ≡ slice_set slots.old.slots id (Some p) }
{
    if let Some(slot) = slots.get_mut(id) {
        *slot = p;
    }
}

impl Text for PlainMarked {
    ghost text = { λ t. t.text };

    ghost marks = { λ t. t.marks };

    ghost together = { λ _. ⊤ };

    fn of(alloc: Global, chars: &[char]) -> Result<Self, Short> {
        let text = PlainText::of(alloc, chars)?;
        Ok(PlainMarked {
            text,
            slots: Slab::new(alloc),
        })
    }

    fn len(&self) -> usize {
        self.text.len()
    }

    fn at(&self, i: usize) -> char {
        self.text.at(i)
    }

    fn piece(&self, at: usize) -> &[char] {
        self.text.piece(at)
    }

    fn gather(&mut self) {
        self.text.gather();
    }

    fn whole(&self) -> &[char] {
        self.text.whole()
    }

    fn copy(&self, a: usize, b: usize) -> Result<Vec<char>, Short> {
        self.text.copy(a, b)
    }

    fn replace(&mut self, a: usize, b: usize, put: &[char]) -> Result<(), Short> {
        // No position is above the length, so that none passes its type when it moves.
        prove!(self.len() < 1 << 61);
        self.text.replace(a, b, put)?;
        shift_slots(&mut self.slots, a, b, put.len());
        Ok(())
    }
}

impl Marked for PlainMarked {
    fn add_mark(&mut self, p: usize) -> Result<MarkId, Short> {
        let id = add_slot(&mut self.slots, p)?;
        Ok(MarkId::of(id))
    }

    fn pos(&self, id: MarkId) -> usize {
        *self.slots.get(id.slot()).unwrap()
    }

    fn place(&mut self, id: MarkId, p: usize) {
        set_slot(&mut self.slots, id.slot(), p);
    }

    fn drop_mark(&mut self, id: MarkId) {
        self.slots.remove(id.slot());
    }

    fn mark_count(&self) -> usize {
        self.slots.len()
    }
}
