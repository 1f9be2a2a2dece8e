// A row of places in one block of memory, each empty or holding a character. Only these functions touch pointers.
ghost use Rattle.std.specs.Prelude.{◌≡◌, ℕ, ◌+◌, ◌<◌, ◌≤◌, ◌^◌, List, Option, Some, None, length, replicate, slice_set, IfSome};
ghost use base.Fml.{ftrue};
ghost use denote.RawPtr.{Ptr, count_of};
ghost use Rattle.mgs_gap.specs.Ownership.{cells_own, cells_lent, block_type};
ghost use Rattle.mgs_gap.specs.Places.{IsCopied, IsRun, ShowsRun};

use std::alloc::{Allocator, Global};
use std::marker::{Model, PhantomData};
use std::mem::{align_of, size_of};
use std::{ptr, slice};

// The owner of the places.
pub(crate) struct Cells {
    at: *mut char,
    ghost slots: { List (Option ℕ) },
}

impl Model for Cells {
    ghost also_owns = { λ c. cells_own c.at c.slots };

    ghost also_shares = { λ c _ κ. cells_lent c.at c.slots κ };
}

// The right to give the block of `len` places at `at` back to `alloc`. It is not `Drop`, so that a block whose owner
// forgets to give it back does not check.
pub(crate) struct FreeRight<A: Allocator> {
    marker: PhantomData<A>,
    ghost at: { Ptr },
    ghost len: { ℕ },
    ghost alloc: { A },
}

impl<A: Allocator> Model for FreeRight<A> {
    ghost also_owns = { λ r. A.dealloc_token r.alloc (block_type r.len) r.at };

    ghost also_shares = { λ _ _ _. ftrue };
}

impl FreeRight<Global> {
    // A block of the heap is given back by its first byte. It takes nothing when it runs.
    pub(crate) fn starts(&mut self)
        ensures { (self.new ≡ self.old) × (count_of self.new.at ≡ 0) }
    {}
}

impl Cells {
    // A block of `len` empty places. `None`: memory was refused.
    pub(crate) fn allocate<A: Allocator>(alloc: &A, len: usize) -> Option<(Cells, FreeRight<A>)>
        requires { len < 2 ^ 61 }
        ensures { IfSome result (λ r. (r.0.slots ≡ replicate len None) × (r.1.at ≡ r.0.at) × (r.1.len ≡ len) × (r.1.alloc ≡ alloc.now)) }
    {
        match alloc.allocate(len * size_of::<char>(), align_of::<char>()) {
            Ok(block) => {
                let at = block as *mut char;
                let marker = PhantomData;
                Some((Cells { at }, FreeRight { marker }))
            }
            Err(_) => None,
        }
    }

    pub(crate) fn free<A: Allocator>(self, right: FreeRight<A>, alloc: &A, len: usize)
        requires { (right.at ≡ self.at) × (right.len ≡ len) × (right.alloc ≡ alloc.now) × (length self.slots ≡ len) }
    {
        let Cells { at } = self;
        let FreeRight { marker: _ } = right;
        unsafe { alloc.deallocate(at as *mut u8, len * size_of::<char>(), align_of::<char>()) }
    }

    pub(crate) fn write(&mut self, index: usize, c: char)
        requires { index < length self.old.slots }
        ensures { (self.new.at ≡ self.old.at) × (self.new.slots ≡ slice_set self.old.slots index (Some c)) }
    {
        unsafe { self.at.add(index).write(c) }
    }

    // The `n` characters from the place `from` on go to the places from `to` on, by one copy in the machine. The places
    // between, and those that they leave, are empty.
    pub(crate) fn copy(&mut self, from: usize, to: usize, n: usize)
        requires { (count_of self.old.at ≡ 0) × IsRun self.old.slots from n × (to + n ≤ length self.old.slots) }
        ensures { (self.new.at ≡ self.old.at) × IsCopied self.old.slots self.new.slots from to n }
    {
        unsafe { ptr::copy(self.at.add(from) as *const char, self.at.add(to), n) }
    }

    // The `len` characters from the place `from` on.
    pub(crate) fn slice(&self, from: usize, len: usize) -> &[char]
        requires { IsRun self.now.slots from len }
        ensures { ShowsRun self.now.slots from len result.now }
    {
        unsafe { slice::from_raw_parts(self.at.add(from), len) }
    }
}
