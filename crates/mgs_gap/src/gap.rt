// A text over a block with a gap. A mark is a raw place of the block: its number there, the gap counted.
ghost use Rattle.std.specs.Prelude.{◌≡◌, ℕ, ◌+◌, ◌-◌, ◌<◌, ◌≤◌, ◌++◌, [], length, slice_range, IfOk};
ghost use Rattle.mgs_marks.specs.Marks.{position_in};
ghost use Rattle.mgs_gap.specs.Feeds.{AreFeeds, HasRoom};
ghost use Rattle.mgs_gap.specs.Gapped.{text_of};
ghost use Rattle.mgs_gap.specs.RawPlaces.{text_place, IsRaw, marks_at};

use crate::block::{Block, MOST};
use crate::feeds::Feeds;
use crate::lined_block::{edit_lined, gather_lined};
use crate::places::{
    Gap, Splice, add_place, leaves_marks, move_places, place_of, put_place, to_raw, to_text,
};
use mgs_marks::Marked;
use mgs_model::{MarkId, Short};
use mgs_text::Text;
use slab::Slab;
use std::alloc::Global;

/// A text with marks in one block of memory with a gap. An edit at the gap moves no other character, and an insertion
/// there that the gap has room for moves no mark. It knows where its line feeds stand: the line of a position is found
/// by a binary search among them, and the start of a line is read off.
#[derive(Drop)]
pub struct GapText {
    block: Block,
    feeds: Feeds,
    places: Slab<usize>,
    alloc: Global,
    ghost lines: { (AreFeeds feeds.before.items feeds.after.items block.front block.back) × HasRoom feeds },
    ghost raw: { (i : ℕ) → IsRaw (length block.front) block.gap (position_in places.slots i) },
    ghost within: { (i : ℕ) → text_place (length block.front) block.gap (position_in places.slots i) ≤ length (text_of block) },
}

impl GapText {
    fn gap(&self) -> Gap
        ensures start { result.start ≡ length self.now.block.front }
        ensures width { result.width ≡ self.now.block.gap }
    {
        Gap {
            start: self.block.before(),
            width: self.block.gap(),
        }
    }
}

// The characters from `a` up to `b` of a text that stands in two parts.
#[tactic(auto, using(crate::proofs::Ranges::range_front, crate::proofs::Ranges::range_back, crate::proofs::Ranges::range_both))]
fn copied(
    alloc: Global,
    front: &[char],
    back: &[char],
    a: usize,
    b: usize,
) -> Result<Vec<char>, Short>
    requires order { a ≤ b }
    requires within { b ≤ length (front.now ++ back.now) }
    ensures { IfOk result (λ v. v.items ≡ slice_range (front.now ++ back.now) a b) }
{
    let cut = front.len();
    if b <= cut {
        return Vec::from_slice(alloc, &front[a..b]).map_err(|_| Short);
    }
    if cut <= a {
        return Vec::from_slice(alloc, &back[a - cut..b - cut]).map_err(|_| Short);
    }
    let mut chars = Vec::from_slice(alloc, &front[a..]).map_err(|_| Short)?;
    chars
        .extend_from_slice(&back[..b - cut])
        .map_err(|_| Short)?;
    Ok(chars)
}

impl Text for GapText {
    ghost text = { λ t. text_of t.block };

    ghost together = { λ t. t.block.back ≡ [] };

    ghost marks = { λ t. marks_at (length t.block.front) t.block.gap t.places.slots };

    fn of(alloc: Global, chars: &[char]) -> Result<Self, Short> {
        let feeds = Feeds::of(alloc, chars)?;
        let block = Block::of(alloc, chars, chars.len() / 2)?;
        Ok(GapText {
            block,
            feeds,
            places: Slab::new(alloc),
            alloc,
        })
    }

    fn len(&self) -> usize {
        self.block.before() + self.block.after()
    }

    fn at(&self, i: usize) -> char {
        self.block.at(i)
    }

    fn piece(&self, at: usize) -> &[char] {
        self.block.piece(at)
    }

    fn gather(&mut self) {
        let old = self.gap();
        // The block's size bounds every place in it.
        prove!(self.block.after() <= MOST);
        let end = self.block.before() + self.block.after();
        let stays = Splice {
            from: end,
            to: end,
            count: 0,
        };
        gather_lined(&mut self.block, &mut self.feeds);
        let new = Gap {
            start: self.block.before(),
            width: self.block.gap(),
        };
        move_places(&mut self.places, old, stays, new);
    }

    fn whole(&self) -> &[char] {
        self.block.front()
    }

    fn copy(&self, a: usize, b: usize) -> Result<Vec<char>, Short> {
        copied(self.alloc, self.block.front(), self.block.back(), a, b)
    }

    fn replace(&mut self, a: usize, b: usize, put: &[char]) -> Result<(), Short> {
        let old = self.gap();
        let edit = Splice {
            from: a,
            to: b,
            count: put.len(),
        };
        // The block's size bounds every place in it, before the edit and after it.
        prove!(self.block.after() <= MOST);
        edit_lined(&mut self.block, &mut self.feeds, self.alloc, a, b, put)?;
        prove!(self.block.after() <= MOST);
        if leaves_marks(edit, old) {
            return Ok(());
        }
        let new = Gap {
            start: self.block.before(),
            width: self.block.gap(),
        };
        move_places(&mut self.places, old, edit, new);
        Ok(())
    }

    fn line_of(&self, p: usize) -> usize {
        // The block's size bounds every place in it.
        prove!(self.block.after() <= MOST);
        self.feeds.line_of(self.block.front(), self.block.back(), p)
    }

    #[tactic(auto, using(crate::proofs::FeedLists::start_of_within))]
    fn start_of(&self, line: usize) -> usize {
        // The block's size bounds every place in it.
        prove!(self.block.after() <= MOST);
        self.feeds
            .start_of(self.block.front(), self.block.back(), line)
    }
}

impl Marked for GapText {
    fn add_mark(&mut self, p: usize) -> Result<MarkId, Short> {
        let gap = self.gap();
        // The block's size bounds every place in it.
        prove!(self.block.after() <= MOST);
        let id = add_place(&mut self.places, to_raw(gap, p))?;
        Ok(MarkId::of(id))
    }

    fn pos(&self, id: MarkId) -> usize {
        to_text(self.gap(), place_of(&self.places, id.slot()))
    }

    fn place(&mut self, id: MarkId, p: usize) {
        // The block's size bounds every place in it.
        prove!(self.block.after() <= MOST);
        let place = to_raw(self.gap(), p);
        put_place(&mut self.places, id.slot(), place);
    }

    fn drop_mark(&mut self, id: MarkId) {
        self.places.remove(id.slot());
    }

    #[tactic(auto, using(crate::proofs::Marks::count_moved))]
    fn mark_count(&self) -> usize {
        self.places.len()
    }
}
