// The events that the journal tells.
ghost use Rattle.std.specs.Prelude.{◌≡◌, ◌≢◌};

use crate::folder::{journal_path, log_path};
use crate::keep_arguments::Wanted;
use crate::live::open_live;
use crate::status::{FAILED, IN_USE, PRINTED};
use jiff::Timestamp;
use jiff::civil::Date;
use jiff::tz::TimeZone;
use mgs_command::tell;
use mgs_ledger::{AuditFault, Filter, audit};
use mgs_tables::OpenFault;
use sqlite::{Alter, Connection};
use std::fmt::Display;
use std::fs::{self, Files};
use std::io::{self, ErrorKind};

/// What a time is that is none.
const NO_TIME: &str = "--since: not a time as 2026-11-29 or 2026-11-29T01:22:33Z";

// The letters of a day, as 2026-11-29. A day's reading takes a time behind it, and leaves that out.
const DAY_LENGTH: usize = 10;

// The seconds since 1970 of a time in UTC, or of the start of a day.
fn seconds_of(text: &str) -> Option<i64> {
    if let Ok(time) = text.parse::<Timestamp>() {
        return Some(time.as_second());
    }
    if text.len() != DAY_LENGTH {
        return None;
    }
    let day = text.parse::<Date>().ok()?;
    let start = day.to_zoned(TimeZone::UTC).ok()?;
    Some(start.timestamp().as_second())
}

/// The program's status where the file of the journal is not opened, which is told.
pub(crate) fn end_open<R: Eprint>(rt: &R, fault: OpenFault) -> u8
    ensures { result ≢ 0 }
{
    let _ = eprintln!(rt; "journal: {fault}");
    match fault {
        OpenFault::Locked => IN_USE,
        _ => FAILED,
    }
}

/// The program's status where the tables of the journal are refused or fail, which is told.
pub(crate) fn end_fault<R: Eprint, E: Display + Drop>(rt: &R, fault: E) -> u8
    ensures { result ≡ FAILED }
{
    let _ = eprintln!(rt; "journal: {fault}");
    FAILED
}

// Prints the events of open tables. They are any tables, since what is done with those of a file is dear to prove.
fn print_tables<S: Alter + Drop>(
    rt: &HostRuntime,
    mut conn: Connection<S>,
    filter: &Filter<'_>,
) -> u8 {
    let mut out = io::writer(rt);
    match audit(&mut conn, rt.alloc(), filter, &mut out) {
        Ok(()) => PRINTED,
        // Whoever reads has read enough.
        Err(AuditFault::Output(error)) if error.kind() == ErrorKind::BrokenPipe => PRINTED,
        Err(fault) => end_fault(rt, fault),
    }
}

// Prints the events of the journal in this file.
fn print_from(rt: &HostRuntime, path: &str, filter: &Filter<'_>) -> u8 {
    match open_live(rt, path) {
        Ok(conn) => print_tables(rt, conn, filter),
        Err(fault) => end_open(rt, fault),
    }
}

// Whether something has a name.
fn is_there<R: Files>(rt: &R, path: &str) -> bool {
    fs::symlink_metadata(rt, path).is_ok()
}

/// Whether there is a journal at a path, or a log beside it.
pub(crate) fn has_journal<R: Files>(rt: &R, path: &str, log_path: &str) -> bool {
    is_there(rt, path) || is_there(rt, log_path)
}

/// Prints the events of the journal in a folder, oldest first, those that are wanted. It only reads, also while a server has the journal open.
pub(crate) fn print_events(rt: &HostRuntime, folder: &str, wanted: &Wanted) -> u8 {
    let since = match &wanted.since {
        None => None,
        Some(text) => match seconds_of(text.as_str()) {
            Some(seconds) => Some(seconds),
            None => {
                tell(rt, NO_TIME);
                return FAILED;
            }
        },
    };
    let Ok(path) = journal_path(rt, folder) else {
        tell(rt, "no memory");
        return FAILED;
    };
    let Ok(beside) = log_path(rt, path.as_str()) else {
        tell(rt, "no memory");
        return FAILED;
    };
    if !has_journal(rt, path.as_str(), beside.as_str()) {
        let _ = eprintln!(rt; "{path}: there is no journal");
        return FAILED;
    }
    let filter = Filter {
        user: wanted.user.as_deref(),
        buffer: wanted.buffer.as_deref(),
        since,
    };
    print_from(rt, path.as_str(), &filter)
}
