// A ledger in memory, with a clock that stands still.
use mgs_ledger::{AuditFault, Filter, Ledger, LedgerFault, audit};
use sqlite::{Alter, Connection, MemStore};
use std::alloc::Global;
use std::cell::Cell;
use std::io::{self, Write};
use std::test::Fail;
use std::time::{Clock, Duration};

// 2026-11-29T01:22:33Z.
const START: u64 = 1_795_915_353;

// The checksum is multiplied by this before each byte.
const FACTOR: u64 = 0x0000_0100_0000_01b3;

/// A clock that stands still until it is set, and a count and a checksum of what ledgers print.
#[derive(Drop)]
pub(crate) struct Dial {
    seconds: Cell<u64>,
    // How many lines were printed.
    lines: Cell<u64>,
    // The checksum of the bytes that were printed.
    sum: Cell<u64>,
}

impl Dial {
    /// A clock that stands at 2026-11-29T01:22:33Z.
    pub(crate) fn new() -> Dial {
        Dial {
            seconds: Cell::new(START),
            lines: Cell::new(0),
            sum: Cell::new(0),
        }
    }

    /// How many lines the writers of ledgers with this clock took.
    pub(crate) fn line_count(&self) -> u64 {
        self.lines.get()
    }

    /// The checksum of what the writers of ledgers with this clock took.
    pub(crate) fn sum(&self) -> u64 {
        self.sum.get()
    }

    /// Sets the clock to so many seconds after it began.
    pub(crate) fn set(&self, seconds: u32) {
        self.seconds.set(START.saturating_add(u64::from(seconds)));
    }

    /// Lets a second pass.
    pub(crate) fn pass_second(&self) {
        self.seconds.set(self.seconds.get().saturating_add(1));
    }
}

impl Clock for Dial {
    fn monotonic(&self) -> io::Result<Duration> {
        Ok(Duration::from_secs(self.seconds.get()))
    }

    fn since_1970(&self) -> io::Result<Duration> {
        self.monotonic()
    }
}

/// A writer that counts lines, and adds bytes to a checksum.
#[derive(Drop)]
pub(crate) struct Pen<'a> {
    dial: &'a Dial,
}

impl Write for Pen<'_> {
    fn write(&mut self, buf: &[u8]) -> io::Result<usize> {
        for byte in buf {
            let sum = self.dial.sum.get();
            self.dial
                .sum
                .set(sum.wrapping_mul(FACTOR).wrapping_add(u64::from(*byte)));
            if *byte == b'\n' {
                let lines = self.dial.lines.get();
                self.dial.lines.set(lines.saturating_add(1));
            }
        }
        Ok(buf.len())
    }

    fn flush(&mut self) -> io::Result<()> {
        Ok(())
    }
}

/// A ledger of these tests.
pub(crate) type Desk<'a> = Ledger<MemStore, &'a Dial, Pen<'a>>;

/// Tables in memory without a row.
pub(crate) fn tables(alloc: Global) -> Result<Connection<MemStore>, Fail> {
    let mut conn = Connection::open_in_memory(alloc)?;
    mgs_tables::make(&mut conn)?;
    Ok(conn)
}

// A ledger over any store, clock and writer, since a call over those of the tests is dear to prove.
fn resume_over<S: Alter + Drop, C: Clock + Drop, W: Write + Drop>(
    alloc: Global,
    conn: Connection<S>,
    clock: C,
    out: W,
) -> Result<Ledger<S, C, W>, LedgerFault> {
    Ledger::resume(conn, alloc, clock, out)
}

/// A ledger that goes on with these tables.
pub(crate) fn resume(
    alloc: Global,
    conn: Connection<MemStore>,
    dial: &Dial,
) -> Result<Desk<'_>, LedgerFault> {
    resume_over(alloc, conn, dial, Pen { dial })
}

/// The ledger again, by its tables.
pub(crate) fn again<'a>(alloc: Global, dial: &'a Dial, desk: Desk<'a>) -> Result<Desk<'a>, Fail> {
    Ok(resume(alloc, desk.close()?, dial)?)
}

/// A ledger that begins.
pub(crate) fn begin(alloc: Global, dial: &Dial) -> Result<Desk<'_>, Fail> {
    Ok(resume(alloc, tables(alloc)?, dial)?)
}

// The checksum of the lines that an audit of any tables prints.
fn audit_sum_over<S: Alter>(alloc: Global, conn: &mut Connection<S>) -> Result<u64, AuditFault> {
    let dial = Dial::new();
    let all = Filter {
        user: None,
        buffer: None,
        since: None,
    };
    audit(conn, alloc, &all, &mut Pen { dial: &dial })?;
    Ok(dial.sum())
}

/// The checksum of the lines that an audit of a ledger that ends prints.
pub(crate) fn audit_sum(alloc: Global, desk: Desk<'_>) -> Result<u64, Fail> {
    Ok(audit_sum_over(alloc, &mut desk.close()?)?)
}

/// The lines that an audit of these tables prints.
pub(crate) fn lines(
    alloc: Global,
    conn: &mut Connection<MemStore>,
    filter: &Filter<'_>,
) -> Result<String, Fail> {
    let mut out = Vec::new(alloc);
    audit(conn, alloc, filter, &mut out)?;
    Ok(String::from_utf8(out)?)
}

/// All lines of these tables.
pub(crate) fn all_lines(alloc: Global, conn: &mut Connection<MemStore>) -> Result<String, Fail> {
    let all = Filter {
        user: None,
        buffer: None,
        since: None,
    };
    lines(alloc, conn, &all)
}

/// All lines of a ledger that ends.
pub(crate) fn last_lines(alloc: Global, desk: Desk<'_>) -> Result<String, Fail> {
    all_lines(alloc, &mut desk.close()?)
}
