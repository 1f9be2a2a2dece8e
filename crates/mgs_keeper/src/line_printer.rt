// Lines that are printed without waiting.
ghost use Rattle.std.specs.Prelude.{◌≡◌, ◌≤◌, ◌<◌, ◌+◌, ◌-◌, ◌^◌, ◌++◌, ◌⊎◌, ℕ, List, [], IfOk, OnErr, OnOk, drop, false, length, min, string_bytes, true};
ghost use Rattle.mgs_keeper.specs.Printing.{Announces, IsAdded, PrintsLine, Sends, SendsCount, count_due, has_place};

use std::alloc::{AllocError, Global};

/// The bytes of lines that wait at most.
pub(crate) const WAITING_LIMIT: usize = 65536;

/// Where bytes are written without waiting.
pub(crate) trait Outlet {
    ghost use Rattle.std.specs.Prelude.{◌≡◌, ◌≤◌, ℕ, List, Option, length, take};
    ghost use Rattle.std.specs.Io.KnownBytes.{Appends};

    // The bytes that were written, where they are known.
    ghost written: { Self → Option (List ℕ) };

    // It takes nothing now.
    ghost full: { Self → Type 0 };

    /// Writes the first of these bytes, as many as it takes without waiting, and answers how many.
    fn put(&mut self, bytes: &[u8]) -> usize
        ensures bound { result ≤ length bytes.now }
        ensures bytes { Appends (written self.old) (written self.new) (take result bytes.now) }
        ensures full { result ≡ 0 → full self.new };
}

/// A printer of lines that never waits. What its outlet does not take waits in memory, up to a limit. A line that has no place there is
/// counted and not printed. The count is a line of its own, which is printed once nothing waits.
#[derive(Drop)]
pub(crate) struct LinePrinter<O: Outlet + Drop> {
    out: O,
    alloc: Global,
    // What is not written yet: whole lines, but for the first, of which a part can be written.
    waiting: Vec<u8>,
    // How many lines were not printed since the last count.
    missed: u64,
}

// The line of the count, empty if no line was missed.
fn count_line(alloc: Global, missed: u64) -> Result<String, AllocError>
    ensures { IfOk result (λ line. string_bytes line ≡ count_due missed) }
{
    if missed == 0 {
        return Ok(String::new(alloc));
    }
    format!(in alloc; "not printed: {missed} lines\n")
}

// One line more was missed.
fn one_more(missed: u64) -> u64
    ensures { result ≡ min (missed + 1) (2 ^ 64 - 1) }
{
    missed.saturating_add(1)
}

// Whether a line of so many bytes has its place behind so many that wait: not if lines were missed and something waits.
fn has_place(waiting: usize, missed: u64, line: usize) -> bool
    ensures { result ≡ has_place waiting missed line }
{
    (missed == 0 || waiting == 0) && line <= WAITING_LIMIT && waiting <= WAITING_LIMIT - line
}

// Puts a line behind what waits, and the count before it.
fn add_line(
    waiting: &mut Vec<u8>,
    alloc: Global,
    missed: u64,
    line: &[u8],
) -> Result<(), AllocError>
    ensures ok { OnOk result (waiting.new.items ≡ waiting.old.items ++ (count_due missed ++ line.now)) }
    ensures err { OnErr result (waiting.new.items ≡ waiting.old.items) }
{
    let mut text = count_line(alloc, missed)?.into_bytes();
    text.extend_from_slice(line)?;
    waiting.extend_from_slice(&text)
}

// Takes the first bytes out, which were written.
fn remove_first(waiting: &mut Vec<u8>, n: usize)
    requires { n ≤ length waiting.old.items }
    ensures { waiting.new.items ≡ drop n waiting.old.items }
{
    if n == waiting.len() {
        waiting.clear();
        return;
    }
    let rest = waiting.len() - n;
    waiting.rotate_left(n);
    waiting.truncate(rest);
}

// Whether nothing waits.
fn is_sent(waiting: &Vec<u8>) -> bool
    ensures { result ≡ true → waiting.now.items ≡ [] }
{
    waiting.is_empty()
}

// Writes some of what waits: whether something was taken.
fn send_some<O: Outlet>(out: &mut O, waiting: &mut Vec<u8>) -> bool
    ensures sends { Sends (O.written out.old) waiting.old.items (O.written out.new) waiting.new.items }
    ensures less { result ≡ true → length waiting.new.items < length waiting.old.items }
    ensures full { result ≡ false → (waiting.new.items ≡ []) ⊎ O.full out.new }
{
    if waiting.is_empty() {
        return false;
    }
    let taken = out.put(waiting);
    remove_first(waiting, taken);
    taken > 0
}

// Writes what waits, as far as that is taken.
#[tactic(auto, using(crate::proofs::Printing::sends_none, crate::proofs::Printing::sends_on))]
fn send_all<O: Outlet>(out: &mut O, waiting: &mut Vec<u8>)
    ensures sends { Sends (O.written out.old) waiting.old.items (O.written out.new) waiting.new.items }
    ensures full { (waiting.new.items ≡ []) ⊎ O.full out.new }
{
    while send_some(out, waiting) {}
}

impl<O: Outlet + Drop> LinePrinter<O> {
    /// A printer of which nothing waits.
    pub(crate) fn new(alloc: Global, out: O) -> Result<LinePrinter<O>, AllocError>
        ensures { IfOk result (λ p. (p.out ≡ out) × (p.waiting.items ≡ []) × (p.missed ≡ 0)) }
    {
        let waiting = Vec::with_capacity(alloc, WAITING_LIMIT)?;
        Ok(LinePrinter {
            out,
            alloc,
            waiting,
            missed: 0,
        })
    }

    // Puts a line behind what waits if there is a place for it, or counts it. `AllocError`: memory was refused, and it is counted.
    fn add(&mut self, line: &[u8]) -> Result<bool, AllocError>
        ensures adds { (added : List ℕ) × IsAdded self.old.missed line.now added self.new.missed × (self.new.waiting.items ≡ self.old.waiting.items ++ added) }
        ensures place { IfOk result (λ is_put. is_put ≡ has_place (length self.old.waiting.items) self.old.missed (length line.now)) }
        ensures put { result ≡ Ok true → self.new.missed ≡ 0 }
        ensures out { self.new.out ≡ self.old.out }
    {
        if !has_place(self.waiting.len(), self.missed, line.len()) {
            self.missed = one_more(self.missed);
            return Ok(false);
        }
        match add_line(&mut self.waiting, self.alloc, self.missed, line) {
            Ok(()) => {
                self.missed = 0;
                Ok(true)
            }
            Err(AllocError) => {
                self.missed = one_more(self.missed);
                Err(AllocError)
            }
        }
    }

    /// Prints a line if there is a place for it, and else counts it.
    pub(crate) fn print(&mut self, line: &[u8])
        ensures prints { PrintsLine line.now (O.written self.old.out) self.old.waiting.items self.old.missed (O.written self.new.out) self.new.waiting.items self.new.missed }
        ensures full { (self.new.waiting.items ≡ []) ⊎ O.full self.new.out }
    {
        send_all(&mut self.out, &mut self.waiting);
        let _ = self.add(line);
        send_all(&mut self.out, &mut self.waiting);
    }

    /// Prints a line, whatever waits. `AllocError`: memory was refused, and nothing is printed.
    pub(crate) fn announce(&mut self, line: &[u8]) -> Result<(), AllocError>
        ensures ok { OnOk result (Announces line.now (O.written self.old.out) self.old.waiting.items self.old.missed (O.written self.new.out) self.new.waiting.items self.new.missed) }
        ensures err { OnErr result ((self.new.out ≡ self.old.out) × (self.new.waiting.items ≡ self.old.waiting.items) × (self.new.missed ≡ self.old.missed)) }
        ensures full { OnOk result ((self.new.waiting.items ≡ []) ⊎ O.full self.new.out) }
    {
        add_line(&mut self.waiting, self.alloc, self.missed, line)?;
        self.missed = 0;
        send_all(&mut self.out, &mut self.waiting);
        Ok(())
    }

    /// Writes what waits, and then the count of the lines that were not printed, if there are some.
    pub(crate) fn send(&mut self)
        ensures sends { SendsCount (O.written self.old.out) self.old.waiting.items self.old.missed (O.written self.new.out) self.new.waiting.items self.new.missed }
        ensures full { (self.new.waiting.items ≡ []) ⊎ O.full self.new.out }
    {
        send_all(&mut self.out, &mut self.waiting);
        if self.missed > 0 && is_sent(&self.waiting) {
            let _ = self.announce(&[]);
        }
    }
}
