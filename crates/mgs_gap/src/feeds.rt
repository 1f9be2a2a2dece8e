// Where the line feeds of a text stand that lies in two parts.
ghost use Rattle.std.specs.Prelude.{◌≡◌, ℕ, ◌+◌, ◌-◌, ◌<◌, ◌≤◌, ◌^◌, ◌++◌, [], length, take, drop, slice_index, count_by, IfOk, OnOk};
ghost use Rattle.std.specs.Vec.{vec_capacity};
ghost use Rattle.mgs_model.specs.Lines.{is_feed, line_of, start_of};
ghost use Rattle.mgs_gap.specs.Feeds.{feeds_from, ends_from, turned, AreFeeds, Parts};

use core::mem::replace_with;
use mgs_model::Short;
use std::alloc::Global;

/// The line feeds of a text that lies in two parts, told so that an edit at the gap moves none of them.
#[derive(Drop)]
pub(crate) struct Feeds {
    /// Those before the gap, by their places.
    pub(crate) before: Vec<usize>,
    /// Those after it, the last one first, by how far they are from the text's end.
    pub(crate) after: Vec<usize>,
}

// How many of the characters are line feeds.
pub(crate) fn count(chars: &[char]) -> usize
    ensures { result ≡ count_by is_feed chars.now }
{
    let mut feeds = 0;
    for c in chars {
        if *c == '\n' {
            feeds += 1;
        }
    }
    feeds
}

// Adds the places of the line feeds among characters, of which the first stands at `from`.
fn push_places(places: &mut Vec<usize>, from: usize, chars: &[char])
    requires room { length places.old.items + count_by is_feed chars.now ≤ vec_capacity places.old }
    requires fits { from + length chars.now < 2 ^ 64 }
    ensures items { places.new.items ≡ places.old.items ++ feeds_from from chars.now }
    ensures capacity { vec_capacity places.new ≡ vec_capacity places.old }
{
    for i in 0..chars.len() {
        if chars[i] == '\n' {
            places.push_reserved(from + i);
        }
    }
}

// How many of the numbers are below the limit, where those stand before all others. The last one, which is beside the gap,
// is looked at first: mostly all are.
fn below(feeds: &[usize], limit: usize) -> usize
    ensures { (n : ℕ) → Parts limit feeds.now n → result ≡ n }
{
    let mut low = 0;
    let mut high = feeds.len();
    if high == 0 || feeds[high - 1] < limit {
        return high;
    }
    while low < high {
        let middle = low + (high - low) / 2;
        if feeds[middle] < limit {
            low = middle + 1;
        } else {
            high = middle;
        }
    }
    low
}

// Adds numbers past the first `left` to a list, the last one first, each counted from the other end of a text of `len`
// characters. The loop has the list by value, which keeps its address in a register while numbers are written.
fn turned_onto(to: Vec<usize>, run: (&[usize], usize, usize)) -> (Vec<usize>, ())
    requires some { run.1 ≤ length run.0.now }
    requires within { (i : ℕ) → i < length run.0.now → slice_index run.0.now i ≤ run.2 }
    requires room { length run.0.now + length to.items ≤ vec_capacity to + run.1 }
    ensures items { result.0.items ≡ to.items ++ turned run.entry.2 (drop run.entry.1 run.entry.0.now) }
    ensures capacity { vec_capacity result.0 ≡ vec_capacity to }
{
    let (numbers, left, len) = run;
    let mut to = to;
    let mut i = numbers.len();
    while i > left {
        i -= 1;
        to.push_reserved(len - numbers[i]);
    }
    (to, ())
}

// Moves the numbers past the first `left` to the end of another list, the last one first, each counted from the other end
// of a text of `len` characters.
fn turn_over(from: &mut Vec<usize>, to: &mut Vec<usize>, left: usize, len: usize)
    requires some { left ≤ length from.old.items }
    requires within { (i : ℕ) → i < length from.old.items → slice_index from.old.items i ≤ len }
    requires room { length from.old.items + length to.old.items ≤ vec_capacity to.old + left }
    ensures stay { from.new.items ≡ take left from.old.items }
    ensures go { to.new.items ≡ to.old.items ++ turned len (drop left from.old.items) }
    ensures from_capacity { vec_capacity from.new ≡ vec_capacity from.old }
    ensures to_capacity { vec_capacity to.new ≡ vec_capacity to.old }
{
    replace_with(to, (&from[..], left, len), turned_onto);
    from.truncate(left);
}

impl Feeds {
    // Those of characters that all stand before the gap.
    pub(crate) fn of(alloc: Global, chars: &[char]) -> Result<Feeds, Short>
        ensures feeds { IfOk result (λ f. AreFeeds f.before.items f.after.items chars.now []) }
        ensures room { IfOk result (λ f. length f.before.items + length f.after.items ≤ vec_capacity f.before) }
    {
        let mut before = Vec::with_capacity(alloc, count(chars)).map_err(|_| Short)?;
        push_places(&mut before, 0, chars);
        Ok(Feeds {
            before,
            after: Vec::new(alloc),
        })
    }

    // Makes room for `more` line feeds, wherever the gap comes to lie. `Short`: memory was refused.
    pub(crate) fn make_room(&mut self, more: usize) -> Result<(), Short>
        ensures capacity { vec_capacity self.old.before ≤ vec_capacity self.new.before }
        ensures before { self.new.before.items ≡ self.old.before.items }
        ensures after { self.new.after.items ≡ self.old.after.items }
        ensures room_before { OnOk result (length self.new.before.items + length self.new.after.items + more ≤ vec_capacity self.new.before) }
        ensures room_after { OnOk result (length self.new.before.items + length self.new.after.items + more ≤ vec_capacity self.new.after) }
    {
        let before = self.after.len().checked_add(more).ok_or(Short)?;
        let after = self.before.len().checked_add(more).ok_or(Short)?;
        self.before.reserve(before).map_err(|_| Short)?;
        self.after.reserve(after).map_err(|_| Short)
    }

    #[tactic(auto, using(crate::proofs::FeedMoves::number_moved))]
    // The gap moves to the place `a` of the text.
    pub(crate) fn cut_at(&mut self, front: &[char], back: &[char], a: usize)
        requires feeds { AreFeeds self.old.before.items self.old.after.items front.now back.now }
        requires within { a ≤ length front.now + length back.now }
        requires fits { length front.now + length back.now < 2 ^ 61 }
        requires room_before { length self.old.before.items + length self.old.after.items ≤ vec_capacity self.old.before }
        requires room_after { a < length front.now → length self.old.before.items + length self.old.after.items ≤ vec_capacity self.old.after }
        ensures feeds { AreFeeds self.new.before.items self.new.after.items (take a (front.now ++ back.now)) (drop a (front.now ++ back.now)) }
        ensures number { length self.new.before.items + length self.new.after.items ≡ length self.old.before.items + length self.old.after.items }
        ensures capacity { vec_capacity self.new.before ≡ vec_capacity self.old.before }
    {
        let start = front.len();
        let len = start + back.len();
        if a < start {
            let left = below(&self.before, a);
            turn_over(&mut self.before, &mut self.after, left, len);
        } else {
            let left = below(&self.after, len - a + 1);
            turn_over(&mut self.after, &mut self.before, left, len);
        }
    }

    // The first `n` characters after the gap go.
    pub(crate) fn delete_after(&mut self, back: &[char], n: usize)
        requires feeds { self.old.after.items ≡ ends_from 0 back.now }
        requires within { n ≤ length back.now }
        ensures after { self.new.after.items ≡ ends_from 0 (drop n back.now) }
        ensures before { self.new.before.items ≡ self.old.before.items }
        ensures capacity { vec_capacity self.new.before ≡ vec_capacity self.old.before }
        ensures fewer { length self.new.after.items ≤ length self.old.after.items }
    {
        let left = below(&self.after, back.len() - n + 1);
        self.after.truncate(left);
    }

    // Characters come before the gap, which lies at `a`.
    pub(crate) fn insert_before(&mut self, a: usize, put: &[char])
        requires room { length self.old.before.items + count_by is_feed put.now ≤ vec_capacity self.old.before }
        requires fits { a + length put.now < 2 ^ 64 }
        ensures before { self.new.before.items ≡ self.old.before.items ++ feeds_from a put.now }
        ensures capacity { vec_capacity self.new.before ≡ vec_capacity self.old.before }
        ensures after { self.new.after.items ≡ self.old.after.items }
    {
        push_places(&mut self.before, a, put);
    }

    // The number of the line of a position, from 0.
    pub(crate) fn line_of(&self, front: &[char], back: &[char], p: usize) -> usize
        requires feeds { AreFeeds self.now.before.items self.now.after.items front.now back.now }
        requires within { p ≤ length front.now + length back.now }
        requires fits { length front.now + length back.now < 2 ^ 61 }
        ensures { result ≡ line_of (front.now ++ back.now) p }
    {
        let start = front.len();
        if p <= start {
            below(&self.before, p)
        } else {
            let left = back.len() - (p - start);
            self.before.len() + (self.after.len() - below(&self.after, left + 1))
        }
    }

    #[tactic(auto, using(crate::proofs::FeedLines::feed_in_front, crate::proofs::FeedLines::feed_in_back, crate::proofs::FeedLines::start_in_front, crate::proofs::FeedLines::start_in_back, crate::proofs::FeedLines::start_of_no_line))]
    // Where the line of a number starts: the text's end where there is none.
    pub(crate) fn start_of(&self, front: &[char], back: &[char], line: usize) -> usize
        requires feeds { AreFeeds self.now.before.items self.now.after.items front.now back.now }
        requires fits { length front.now + length back.now < 2 ^ 61 }
        ensures { result ≡ start_of line (front.now ++ back.now) }
    {
        let before = self.before.len();
        if line == 0 {
            return 0;
        }
        if line <= before {
            return self.before[line - 1] + 1;
        }
        let len = front.len() + back.len();
        let past = line - before;
        if past <= self.after.len() {
            return len + 1 - self.after[self.after.len() - past];
        }
        len
    }
}
