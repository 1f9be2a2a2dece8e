// A block and its line feeds, which are edited together.
ghost use Rattle.std.specs.Prelude.{◌≡◌, ◌+◌, ◌-◌, ◌≤◌, ◌++◌, [], length, take, drop, OnOk, OnErr};
ghost use Rattle.mgs_gap.specs.Feeds.{AreFeeds, HasRoom};
ghost use Rattle.mgs_gap.specs.Gapped.{text_of};

use crate::block::{Block, MOST};
use crate::feeds::{Feeds, count};
use mgs_model::Short;
use std::alloc::Global;

// The gap moves to the text's end. It takes no memory.
pub(crate) fn gather_lined(block: &mut Block, feeds: &mut Feeds)
    requires feeds { AreFeeds feeds.old.before.items feeds.old.after.items block.old.front block.old.back }
    requires room { HasRoom feeds.old }
    ensures front { block.new.front ≡ text_of block.old }
    ensures gap { block.new.gap ≡ block.old.gap }
    ensures back { block.new.back ≡ [] }
    ensures feeds { AreFeeds feeds.new.before.items feeds.new.after.items block.new.front block.new.back }
    ensures room { HasRoom feeds.new }
{
    // The block's size bounds every place in it.
    prove!(block.after() <= MOST);
    let end = block.before() + block.after();
    feeds.cut_at(block.front(), block.back(), end);
    block.gap_to(end);
}

// Puts characters in place of those from `a` up to `b`. The gap then lies after them. `Short`: memory was refused, and
// all is as it was.
#[tactic(auto, using(crate::proofs::FeedEdits::edited_front, crate::proofs::FeedEdits::edited_back, crate::proofs::FeedEdits::edited_gap))]
pub(crate) fn edit_lined(
    block: &mut Block,
    feeds: &mut Feeds,
    alloc: Global,
    a: usize,
    b: usize,
    put: &[char],
) -> Result<(), Short>
    requires feeds { AreFeeds feeds.old.before.items feeds.old.after.items block.old.front block.old.back }
    requires order { a ≤ b }
    requires within { b ≤ length (text_of block.old) }
    ensures front { OnOk result (block.new.front ≡ take a (text_of block.old) ++ put.now) }
    ensures back { OnOk result (block.new.back ≡ drop b (text_of block.old)) }
    ensures gap { length put.now ≤ block.old.gap → OnOk result (block.new.gap ≡ block.old.gap + (b - a) - length put.now) }
    ensures feeds { AreFeeds feeds.new.before.items feeds.new.after.items block.new.front block.new.back }
    ensures err { OnErr result (block.new ≡ block.old) }
    ensures room { HasRoom feeds.old → HasRoom feeds.new }
{
    // The block's size bounds every place in it.
    prove!(block.after() <= MOST);
    feeds.make_room(count(put))?;
    block.reserve(alloc, put.len())?;
    feeds.cut_at(block.front(), block.back(), a);
    block.gap_to(a);
    feeds.delete_after(block.back(), b - a);
    block.delete(b - a);
    feeds.insert_before(a, put);
    block.insert(put);
    Ok(())
}
