// The lines of all events.
ghost use Rattle.std.specs.Prelude.{OnOk};
ghost use Rattle.sqlite.specs.Held.{Held};
ghost use Rattle.mgs_ledger.specs.Agreement.{HasAgreed};

use crate::agreement::test_tables;
use crate::event_line::line_of;
use crate::ledger_fault::LedgerFault;
use mgs_tables::{Event, EventRow, read_events};
use sqlite::{Alter, Connection, Error as SqliteError};
use std::alloc::{AllocError, Global};
use std::io::{self, Write};
use thiserror::Error;

/// How many events are read at once.
const PAGE: u32 = 256;

/// Which events are printed: those that meet each condition that is there.
#[derive(Clone, Copy)]
pub struct Filter<'a> {
    /// The name of the user whose doing it was.
    pub user: Option<&'a str>,
    /// The name of the buffer that it was about.
    pub buffer: Option<&'a str>,
    /// The earliest time, in seconds since 1970.
    pub since: Option<i64>,
}

/// Why not all lines are printed.
#[derive(Debug, Drop, Error)]
pub enum AuditFault {
    /// The table of buffers does not have the rights that the events tell, or it does not read.
    #[error("{0}")]
    Ledger(LedgerFault),
    /// The tables fail.
    #[error("{0}")]
    Tables(SqliteError),
    /// The writer fails.
    #[error("{0}")]
    Output(io::Error),
    /// Memory was refused.
    #[error("no memory")]
    Short,
}

impl From<LedgerFault> for AuditFault {
    fn from(fault: LedgerFault) -> AuditFault {
        AuditFault::Ledger(fault)
    }
}

impl From<SqliteError> for AuditFault {
    fn from(error: SqliteError) -> AuditFault {
        AuditFault::Tables(error)
    }
}

impl From<io::Error> for AuditFault {
    fn from(error: io::Error) -> AuditFault {
        AuditFault::Output(error)
    }
}

impl From<AllocError> for AuditFault {
    fn from(_error: AllocError) -> AuditFault {
        AuditFault::Short
    }
}

fn is_wanted(wanted: Option<&str>, text: &str) -> bool {
    match wanted {
        Some(wanted) => wanted == text,
        None => true,
    }
}

impl Filter<'_> {
    fn passes(&self, event: &Event) -> bool {
        is_wanted(self.user, event.user.as_str())
            && is_wanted(self.buffer, event.buffer.as_str())
            && match self.since {
                Some(since) => since <= event.at,
                None => true,
            }
    }
}

fn row_of(event: &Event) -> EventRow<'_> {
    EventRow {
        at: event.at,
        user: event.user.as_str(),
        what: event.what.as_str(),
        buffer: event.buffer.as_str(),
        detail: event.detail.as_str(),
    }
}

fn print_event<W: Write>(out: &mut W, alloc: Global, event: &Event) -> Result<(), AuditFault> {
    let line = line_of(alloc, event.number, &row_of(event))?;
    out.write_all(line.as_str().as_bytes())?;
    Ok(())
}

// Prints those of the events that pass, and says the number of the last of all.
fn print_page<W: Write>(
    out: &mut W,
    alloc: Global,
    filter: &Filter<'_>,
    events: &[Event],
    mut last: i64,
) -> Result<i64, AuditFault> {
    for event in events {
        if filter.passes(event) {
            print_event(out, alloc, event)?;
        }
        last = event.number;
    }
    Ok(last)
}

/// Prints the lines of the events that pass, oldest first, as they were on the ledger's writer when they were committed.
///
/// # Errors
///
/// `Ledger` if the table of buffers does not have the rights that the events tell, or does not read: no line is printed then. `Tables` if
/// the tables fail, `Output` if the writer does, and `Short` for want of memory: the lines up to there are printed.
pub fn audit<S: Alter, W: Write>(
    conn: &mut Connection<S>,
    alloc: Global,
    filter: &Filter<'_>,
    out: &mut W,
) -> Result<(), AuditFault>
    ensures { OnOk result ((mid : Held _) × HasAgreed S.Store conn.old mid) }
{
    test_tables(conn, alloc)?;
    let mut last = 0;
    for _ in 0..u64::MAX {
        let events = read_events(conn, alloc, last, PAGE)?;
        if events.is_empty() {
            return Ok(());
        }
        last = print_page(out, alloc, filter, events.as_slice(), last)?;
    }
    Ok(())
}
