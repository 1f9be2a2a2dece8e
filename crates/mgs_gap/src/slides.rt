// Runs of characters that are written into a block or move inside it, in safe code. The loop has the cells by value, which
// keeps their address in a register while characters are written.
ghost use Rattle.std.specs.Prelude.{◌≡◌, ◌+◌, ◌<◌, ◌≤◌, ◌^◌, length};
ghost use denote.RawPtr.{count_of};
ghost use Rattle.mgs_gap.specs.Places.{IsRun, raised, lowered, written};

use crate::cells::Cells;
use core::mem::replace_with;

// Writes characters from a place on.
fn filled(cells: Cells, put: (usize, &[char])) -> (Cells, ())
    requires room { put.0 + length put.1.now ≤ length cells.slots }
    requires fits { length cells.slots < 2 ^ 61 }
    ensures at { result.0.at ≡ cells.at }
    ensures slots { result.0.slots ≡ written cells.slots put.entry.0 put.entry.1.now (length put.entry.1.now) }
{
    let (to, chars) = put;
    let mut cells = cells;
    for i in 0..chars.len() {
        cells.write(to + i, chars[i]);
    }
    (cells, ())
}

impl Cells {
    // The `n` characters from the place `from` on go up by `k` places.
    pub(crate) fn raise(&mut self, from: usize, k: usize, n: usize)
        requires start { count_of self.old.at ≡ 0 }
        requires run { IsRun self.old.slots from n }
        requires room { from + k + n ≤ length self.old.slots }
        requires fits { length self.old.slots < 2 ^ 61 }
        ensures at { self.new.at ≡ self.old.at }
        ensures slots { self.new.slots ≡ raised self.old.slots from k n }
    {
        self.copy(from, from + k, n);
    }

    // The `n` characters that are `k` places above the place `to` come down to it.
    pub(crate) fn lower(&mut self, to: usize, k: usize, n: usize)
        requires start { count_of self.old.at ≡ 0 }
        requires run { IsRun self.old.slots (to + k) n }
        requires fits { length self.old.slots < 2 ^ 61 }
        ensures at { self.new.at ≡ self.old.at }
        ensures slots { self.new.slots ≡ lowered self.old.slots to k n }
    {
        self.copy(to + k, to, n);
    }

    // The characters stand from the place `to` on.
    pub(crate) fn fill(&mut self, to: usize, chars: &[char])
        requires room { to + length chars.now ≤ length self.old.slots }
        requires fits { length self.old.slots < 2 ^ 61 }
        ensures at { self.new.at ≡ self.old.at }
        ensures slots { self.new.slots ≡ written self.old.slots to chars.now (length chars.now) }
    {
        replace_with(self, (to, chars), filled);
    }
}
