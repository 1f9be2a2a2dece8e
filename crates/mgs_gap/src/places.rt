// Raw places and places in the text.
ghost use Rattle.std.specs.Prelude.{◌≡◌, ◌≢◌, ℕ, ◌+◌, ◌<◌, ◌≤◌, ◌^◌, ◌↔◌, Some, None, map, length, slice_set, IsSome, IsTrue, IfOk, OnErr};
ghost use Rattle.std.specs.Option.{option_map};
ghost use Rattle.slab.specs.Slab.{get};
ghost use Rattle.mgs_model.specs.Text.{shift};
ghost use Rattle.mgs_marks.specs.Marks.{mark_in, position_in, or_zero};
ghost use Rattle.mgs_gap.specs.RawPlaces.{text_place, raw_place, IsRaw, moved};

use mgs_model::Short;
use slab::Slab;

/// Where the gap lies.
#[derive(Clone, Copy)]
pub(crate) struct Gap {
    /// How many characters stand before it.
    pub(crate) start: usize,
    /// How many characters have room in it.
    pub(crate) width: usize,
}

/// Characters come in place of others.
#[derive(Clone, Copy)]
pub(crate) struct Splice {
    /// Where in the text the first of those that go stands.
    pub(crate) from: usize,
    /// Where in the text the first one behind them stands.
    pub(crate) to: usize,
    /// How many come.
    pub(crate) count: usize,
}

pub(crate) fn to_text(gap: Gap, place: usize) -> usize
    requires { IsRaw gap.start gap.width place }
    ensures { result ≡ text_place gap.start gap.width place }
{
    if place <= gap.start {
        place
    } else {
        place - gap.width
    }
}

pub(crate) fn to_raw(gap: Gap, p: usize) -> usize
    requires { p + gap.width < 2 ^ 64 }
    ensures { result ≡ raw_place gap.start gap.width p }
{
    if p <= gap.start { p } else { p + gap.width }
}

// Whether an edit is an insertion at the gap that the gap has room for: then each mark's place stays right.
pub(crate) fn leaves_marks(edit: Splice, gap: Gap) -> bool
    ensures { IsTrue result ↔ ((edit.from ≡ edit.to) × (edit.from ≡ gap.start) × (edit.count ≤ gap.width)) }
{
    edit.from == edit.to && edit.from == gap.start && edit.count <= gap.width
}

fn shifted(p: usize, edit: Splice) -> usize
    requires order { edit.from ≤ edit.to }
    requires fits { p + edit.count < 2 ^ 64 }
    ensures { result ≡ shift edit.from edit.to edit.count p }
{
    if p <= edit.from {
        p
    } else if p < edit.to {
        edit.from
    } else {
        p - (edit.to - edit.from) + edit.count
    }
}

fn moved_place(place: usize, old: Gap, edit: Splice, new: Gap) -> usize
    requires order { edit.from ≤ edit.to }
    requires raw { IsRaw old.start old.width place }
    requires fits { text_place old.start old.width place + edit.count < 2 ^ 64 }
    requires stays { shift edit.from edit.to edit.count (text_place old.start old.width place) + new.width < 2 ^ 64 }
    ensures { result ≡ moved old.start old.width edit.from edit.to edit.count new.start new.width place }
{
    to_raw(new, shifted(to_text(old, place), edit))
}

// Moves the mark of one slot, if it is in use.
fn move_place(places: &mut Slab<usize>, id: usize, old: Gap, edit: Splice, new: Gap)
    requires order { edit.from ≤ edit.to }
    requires raw { IsRaw old.start old.width (or_zero (get places.old id)) }
    requires fits { text_place old.start old.width (or_zero (get places.old id)) + edit.count < 2 ^ 64 }
    requires stays { shift edit.from edit.to edit.count (text_place old.start old.width (or_zero (get places.old id))) + new.width < 2 ^ 64 }
    ensures moved { get places.new id ≡ option_map (moved old.start old.width edit.from edit.to edit.count new.start new.width) (get places.old id) }
    ensures others { (k : ℕ) → k ≢ id → get places.new k ≡ get places.old k }
    ensures len { length places.new.slots ≡ length places.old.slots }
{
    if let Some(place) = places.get_mut(id) {
        *place = moved_place(*place, old, edit, new);
    }
}

// Moves every mark over an edit that took the gap from `old` to `new`.
pub(crate) fn move_places(places: &mut Slab<usize>, old: Gap, edit: Splice, new: Gap)
    requires order { edit.from ≤ edit.to }
    requires raw { (i : ℕ) → IsRaw old.start old.width (position_in places.old.slots i) }
    requires fits { (i : ℕ) → text_place old.start old.width (position_in places.old.slots i) + edit.count < 2 ^ 64 }
    requires stays { (i : ℕ) → shift edit.from edit.to edit.count (text_place old.start old.width (position_in places.old.slots i)) + new.width < 2 ^ 64 }
    ensures { places.new.slots ≡ map (option_map (moved old.start old.width edit.from edit.to edit.count new.start new.width)) places.old.slots }
{
    for id in 0..places.capacity() {
        move_place(places, id, old, edit, new);
    }
}

// A new mark's slot.
#[tactic(auto, using(mgs_marks::proofs::Moves::mark_in_get))]
pub(crate) fn add_place(places: &mut Slab<usize>, place: usize) -> Result<usize, Short>
    ensures free { IfOk result (λ id. mark_in places.old.slots id ≡ None) }
    ensures added { IfOk result (λ id. mark_in places.new.slots id ≡ Some place) }
    ensures others { IfOk result (λ id. (k : ℕ) → k ≢ id → mark_in places.new.slots k ≡ mark_in places.old.slots k) }
    ensures err { OnErr result (places.new.slots ≡ places.old.slots) }
{
    places.reserve(1).map_err(|_| Short)?;
    Ok(places.insert_reserved(place))
}

// The place of a mark.
pub(crate) fn place_of(places: &Slab<usize>, id: usize) -> usize
    requires { IsSome (get places.now id) }
    ensures { get places.now id ≡ Some result }
{
    places[id]
}

// Puts a mark at a place.
pub(crate) fn put_place(places: &mut Slab<usize>, id: usize, place: usize)
    requires { IsSome (get places.old id) }
    ensures { places.new.slots ≡ slice_set places.old.slots id (Some place) }
{
    if let Some(slot) = places.get_mut(id) {
        *slot = place;
    }
}
