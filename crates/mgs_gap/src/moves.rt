// Longer steps of a block, in safe code.
ghost use Rattle.std.specs.Prelude.{◌≡◌, ◌+◌, ◌-◌, ◌<◌, ◌≤◌, ◌++◌, [], length, take, drop, slice_index, IfOk, OnOk, OnErr};
ghost use Rattle.mgs_gap.specs.Gapped.{gapped, text_of};

use crate::block::Block;
use mgs_model::Short;
use std::alloc::Global;

impl Block {
    // A block of these characters and a gap of `gap` places after them.
    pub(crate) fn of(alloc: Global, chars: &[char], gap: usize) -> Result<Block, Short>
        ensures { IfOk result (λ b. b ≡ gapped chars.now gap []) }
    {
        let size = chars.len().checked_add(gap).ok_or(Short)?;
        let mut block = Block::with_gap(alloc, size)?;
        block.insert(chars);
        Ok(block)
    }

    // The character after the place `i` of the text.
    pub(crate) fn at(&self, i: usize) -> char
        requires { i < length (text_of self.now) }
        ensures { result ≡ slice_index (text_of self.now) i }
    {
        let before = self.before();
        if i < before {
            self.front()[i]
        } else {
            self.back()[i - before]
        }
    }

    // The characters after the place `at` of the text: those up to the gap, or all.
    #[tactic(auto, using(crate::proofs::Ranges::piece_front, crate::proofs::Ranges::piece_back))]
    pub(crate) fn piece(&self, at: usize) -> &[char]
        requires { at ≤ length (text_of self.now) }
        ensures piece { drop at (text_of self.now) ≡ result.now ++ drop (at + length result.now) (text_of self.now) }
        ensures within { at + length result.now ≤ length (text_of self.now) }
        ensures some { at < length (text_of self.now) → 0 < length result.now }
    {
        let before = self.before();
        if at < before {
            &self.front()[at..]
        } else {
            &self.back()[at - before..]
        }
    }

    // Moves the gap to the place `a` of the text.
    pub(crate) fn gap_to(&mut self, a: usize)
        requires { a ≤ length (text_of self.old) }
        ensures { self.new ≡ gapped (take a (text_of self.old)) self.old.gap (drop a (text_of self.old)) }
    {
        let before = self.before();
        if a < before {
            self.pass_left(a);
        } else {
            self.pass_right(a - before);
        }
    }

    // Makes the gap at least `n` places wide, where it lies: where it grows, by half the text at least. `Short`: memory
    // was refused, and all is as it was.
    pub(crate) fn reserve(&mut self, alloc: Global, n: usize) -> Result<(), Short>
        ensures text { text_of self.new ≡ text_of self.old }
        ensures front { self.new.front ≡ self.old.front }
        ensures back { self.new.back ≡ self.old.back }
        ensures kept { n ≤ self.old.gap → self.new ≡ self.old }
        ensures wide { OnOk result (n ≤ self.new.gap) }
        ensures err { OnErr result (self.new ≡ self.old) }
    {
        if n <= self.gap() {
            return Ok(());
        }
        let len = self.before() + self.after();
        let size = len.checked_add(n.max(len / 2)).ok_or(Short)?;
        let mut next = Block::with_gap(alloc, size)?;
        next.insert(self.front());
        next.insert(self.back());
        next.gap_to(self.before());
        *self = next;
        Ok(())
    }
}
