// The bytes that wait for a terminal.
ghost use Rattle.std.specs.Prelude.{◌≡◌, ◌==◌, ℕ, ◌+◌, ◌≤◌, List, [], ◌++◌, drop, length, IfOk};
ghost use Rattle.mgs_paint.specs.Painting.{bound_of, Paints};
ghost use Rattle.mgs_paint.specs.Repainting.{Repaints};
ghost use Rattle.mgs_grid.specs.RowSets.{AreSameApart};
ghost use Rattle.mgs_model.specs.declared.limits.TheConstants.{QUEUE_LIMIT};
ghost use Rattle.mgs_engine.specs.Waiting.{IsByteQueue};

use mgs_grid::{Grid, RowSet};
use mgs_model::{QUEUE_LIMIT, Short};
use mgs_paint::{first, paint_rows};
use std::alloc::Global;
use std::marker::Model;

/// Bytes that are put in at the end and taken from the front, at most `QUEUE_LIMIT` at once. Its room is made at the start.
#[derive(Drop)]
pub(crate) struct ByteQueue {
    // The bytes that wait, after some that were taken. These go when no more wait, so that a terminal which keeps up has its
    // bytes in the same few places, or when as many were taken as may wait: so each byte is moved once at most.
    bytes: Vec<u8>,
    taken: usize,
}

impl Model for ByteQueue {
    ghost use Rattle.std.specs.Prelude.{ℕ, List, drop};

    ghost Value = { List ℕ };

    ghost use Rattle.mgs_engine.specs.Waiting.{IsByteQueue};

    ghost view = { λ q. drop q.taken q.bytes.items };

    ghost invariant = { λ q. IsByteQueue q.bytes q.taken };
}

// Takes `n` more bytes from the front. It answers how many then stand there that were taken.
fn take_more(bytes: &mut Vec<u8>, taken: usize, n: usize) -> usize
    requires queue { IsByteQueue bytes.old taken }
    requires within { n ≤ length (drop taken bytes.old.items) }
    ensures queue { IsByteQueue bytes.new result }
    ensures rest { drop result bytes.new.items ≡ drop n (drop taken bytes.old.items) }
{
    let taken = taken + n;
    if taken == bytes.len() {
        bytes.clear();
        return 0;
    }
    if taken < QUEUE_LIMIT {
        return taken;
    }
    let rest = bytes.len() - taken;
    bytes.rotate_left(taken);
    bytes.truncate(rest);
    0
}

// Puts the bytes behind those that wait that paint the whole of a grid.
fn put_first(bytes: &mut Vec<u8>, taken: usize, new: &Grid)
    requires queue { IsByteQueue bytes.old taken }
    requires room { length (drop taken bytes.old.items) + bound_of new.now.rows new.now.cols ≤ QUEUE_LIMIT }
    ensures queue { IsByteQueue bytes.new taken }
    ensures paints { (more : List ℕ) × (drop taken bytes.new.items ≡ drop taken bytes.old.items ++ more) × Paints new.now more }
{
    first(new, bytes);
}

// Puts the bytes behind those that wait that repaint a grid where it differs from the shown one: in some of these rows.
fn put_changes(bytes: &mut Vec<u8>, taken: usize, old: &Grid, new: &Grid, rows: &RowSet)
    requires queue { IsByteQueue bytes.old taken }
    requires rows { new.now.rows ≡ old.now.rows }
    requires cols { new.now.cols ≡ old.now.cols }
    requires apart { AreSameApart rows.now old.now.lines new.now.lines }
    requires room { length (drop taken bytes.old.items) + bound_of new.now.rows new.now.cols ≤ QUEUE_LIMIT }
    ensures queue { IsByteQueue bytes.new taken }
    ensures repaints { (more : List ℕ) × (drop taken bytes.new.items ≡ drop taken bytes.old.items ++ more) × Repaints old.now new.now more }
{
    paint_rows(old, new, rows, bytes);
}

impl ByteQueue {
    /// An empty queue. `Short`: memory was refused.
    pub(crate) fn new(alloc: Global) -> Result<ByteQueue, Short>
        ensures { IfOk result (λ q. q ≡ []) }
    {
        match Vec::with_capacity(alloc, 2 * QUEUE_LIMIT) {
            Ok(bytes) => Ok(ByteQueue { bytes, taken: 0 }),
            Err(_) => Err(Short),
        }
    }

    /// The bytes that wait.
    pub(crate) fn bytes(&self) -> &[u8]
        ensures { result.now ≡ self.now }
    {
        &self.bytes[self.taken..]
    }

    /// How many bytes wait.
    pub(crate) fn len(&self) -> usize
        ensures value { result ≡ length self.now }
        ensures few { result ≤ QUEUE_LIMIT }
    {
        self.bytes.len() - self.taken
    }

    /// Whether no bytes wait.
    pub(crate) fn is_empty(&self) -> bool
        ensures { result ≡ (length self.now == 0) }
    {
        self.bytes.len() == self.taken
    }

    /// Appends the bytes that paint the whole of a grid.
    pub(crate) fn first(&mut self, new: &Grid)
        requires { length self.old + bound_of new.now.rows new.now.cols ≤ QUEUE_LIMIT }
        ensures { (more : List ℕ) × (self.new ≡ self.old ++ more) × Paints new.now more }
    {
        put_first(&mut self.bytes, self.taken, new);
    }

    /// Appends the bytes that repaint a grid where it differs from the shown one: in some of these rows.
    pub(crate) fn repaint(&mut self, old: &Grid, new: &Grid, rows: &RowSet)
        requires rows { new.now.rows ≡ old.now.rows }
        requires cols { new.now.cols ≡ old.now.cols }
        requires apart { AreSameApart rows.now old.now.lines new.now.lines }
        requires room { length self.old + bound_of new.now.rows new.now.cols ≤ QUEUE_LIMIT }
        ensures { (more : List ℕ) × (self.new ≡ self.old ++ more) × Repaints old.now new.now more }
    {
        put_changes(&mut self.bytes, self.taken, old, new, rows);
    }

    /// Takes `n` bytes from the front.
    pub(crate) fn take(&mut self, n: usize)
        requires { n ≤ length self.old }
        ensures { self.new ≡ drop n self.old }
    {
        self.taken = take_more(&mut self.bytes, self.taken, n);
    }

    /// Takes all bytes.
    pub(crate) fn clear(&mut self)
        ensures { self.new ≡ [] }
    {
        self.bytes.clear();
        self.taken = 0;
    }
}
