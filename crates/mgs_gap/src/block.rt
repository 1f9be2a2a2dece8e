// The block with its gap: the characters before the gap, the places of the gap, and the characters after it.
ghost use Rattle.std.specs.Prelude.{◌≡◌, ◌+◌, ◌-◌, ◌<◌, ◌≤◌, ◌^◌, ◌++◌, [], length, take, drop, IfOk};
ghost use Rattle.mgs_gap.specs.Gapped.{Gapped, gapped};

use crate::cells::{Cells, FreeRight};
use mgs_model::Short;
use std::alloc::Global;
use std::marker::Model;

// The most characters that a block may have, so that its bytes are below 2 ^ 63.
pub(crate) const MOST: usize = (1 << 61) - 1;

pub(crate) struct Block {
    cells: Cells,
    right: FreeRight<Global>,
    alloc: Global,
    before: usize,
    gap: usize,
    after: usize,
}

impl Model for Block {
    ghost use Rattle.mgs_gap.specs.Gapped.{Gapped, gapped};

    ghost Value = { Gapped };

    ghost use Rattle.mgs_gap.specs.Blocks.{front_in, back_in, IsBlock};

    ghost view = { λ b. gapped (front_in b) b.gap (back_in b) };

    ghost invariant = { λ b. IsBlock b };
}

impl Drop for Block {
    fn drop(self) {
        let Block {
            cells,
            right,
            alloc,
            before,
            gap,
            after,
        } = self;
        cells.free(right, &alloc, before + gap + after);
    }
}

impl Block {
    // A block that is all gap.
    pub(crate) fn with_gap(alloc: Global, gap: usize) -> Result<Block, Short>
        ensures { IfOk result (λ b. b ≡ gapped [] gap []) }
    {
        if gap > MOST {
            return Err(Short);
        }
        match Cells::allocate(&alloc, gap) {
            None => Err(Short),
            Some((cells, right)) => {
                let mut right = right;
                right.starts();
                Ok(Block {
                    cells,
                    right,
                    alloc,
                    before: 0,
                    gap,
                    after: 0,
                })
            }
        }
    }

    pub(crate) fn before(&self) -> usize
        ensures { result ≡ length self.now.front }
    {
        self.before
    }

    pub(crate) fn gap(&self) -> usize
        ensures { result ≡ self.now.gap }
    {
        self.gap
    }

    pub(crate) fn after(&self) -> usize
        ensures value { result ≡ length self.now.back }
        ensures fits { length self.now.front + self.now.gap + length self.now.back < 2 ^ 61 }
    {
        self.after
    }

    // The characters before the gap.
    pub(crate) fn front(&self) -> &[char]
        ensures { result.now ≡ self.now.front }
    {
        self.cells.slice(0, self.before)
    }

    // The characters after the gap.
    pub(crate) fn back(&self) -> &[char]
        ensures { result.now ≡ self.now.back }
    {
        self.cells.slice(self.before + self.gap, self.after)
    }

    // Puts characters at the gap's start.
    pub(crate) fn insert(&mut self, put: &[char])
        requires { length put.now ≤ self.old.gap }
        ensures { self.new ≡ gapped (self.old.front ++ put.now) (self.old.gap - length put.now) self.old.back }
    {
        self.cells.fill(self.before, put);
        self.before += put.len();
        self.gap -= put.len();
    }

    // Moves the gap back to the place `a` before it.
    pub(crate) fn pass_left(&mut self, a: usize)
        requires { a ≤ length self.old.front }
        ensures { self.new ≡ gapped (take a self.old.front) self.old.gap (drop a self.old.front ++ self.old.back) }
    {
        let n = self.before - a;
        self.cells.raise(a, self.gap, n);
        self.before = a;
        self.after += n;
    }

    // Moves the gap over the `n` characters after it.
    pub(crate) fn pass_right(&mut self, n: usize)
        requires { n ≤ length self.old.back }
        ensures { self.new ≡ gapped (self.old.front ++ take n self.old.back) self.old.gap (drop n self.old.back) }
    {
        self.cells.lower(self.before, self.gap, n);
        self.before += n;
        self.after -= n;
    }

    // Widens the gap over the `n` characters after it.
    pub(crate) fn delete(&mut self, n: usize)
        requires { n ≤ length self.old.back }
        ensures { self.new ≡ gapped self.old.front (self.old.gap + n) (drop n self.old.back) }
    {
        self.gap += n;
        self.after -= n;
    }
}
