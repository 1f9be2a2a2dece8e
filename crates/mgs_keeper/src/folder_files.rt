// The files of a journal in a folder.
ghost use Rattle.std.specs.Prelude.{◌≡◌, ◌≢◌, IfErr, OnOk};

use crate::events::{end_fault, end_open, has_journal};
use crate::folder::{has_room, make_private, room_path};
use crate::keep_arguments::Mendings;
use crate::live::{open_live, open_none};
use crate::repair::first_status;
use crate::status::FAILED;
use crate::trial::{Tried, try_start};
use crate::watch::Watch;
use mgs_buffers::Buffers;
use mgs_command::{NO_MEMORY, tell};
use mgs_ledger::Ledger;
use mgs_marks::Marked;
use mgs_policy::Directory;
use mgs_tables::{OpenFault, open};
use sqlite::{Alter, Connection, FileFrom, FileStore, Wary};
use sqlite_disk::Memory;
use std::io::{self, Write};

/// The ledger that goes on with open tables. They are any tables, since what is done with those of a file is dear to prove.
pub(crate) fn resume_ledger<'a, S: Alter + Drop, W: Write + Drop>(
    rt: &'a HostRuntime,
    conn: Connection<S>,
    out: W,
) -> Result<Ledger<S, &'a HostRuntime, W>, u8>
    ensures { IfErr result (λ status. status ≢ 0) }
{
    match Ledger::resume(conn, rt.alloc(), rt, out) {
        Ok(ledger) => Ok(ledger),
        Err(fault) => Err(end_fault(rt, fault)),
    }
}

// A copy of the journal in memory, or of none.
fn open_copied(
    rt: &HostRuntime,
    path: &str,
    log_path: &str,
) -> Result<Connection<FileStore<Memory>>, OpenFault> {
    if has_journal(rt, path, log_path) {
        return open_live(rt, path);
    }
    open_none(rt)
}

/// The watch of the files of a journal that was opened.
pub(crate) fn begin_watch(rt: &HostRuntime, path: &str) -> Result<Watch, u8>
    ensures { IfErr result (λ status. status ≢ 0) }
{
    match Watch::new(rt, path) {
        Ok(watch) => Ok(watch),
        Err(_) => Err(end_open(rt, OpenFault::System)),
    }
}

// Tests that the disk has room, by a file that is written and removed again.
fn test_room(rt: &HostRuntime, path: &str) -> Result<(), u8>
    ensures { IfErr result (λ status. status ≢ 0) }
{
    let Ok(beside) = room_path(rt, path) else {
        tell(rt, NO_MEMORY);
        return Err(FAILED);
    };
    match has_room(rt, beside.as_str()) {
        Ok(true) => Ok(()),
        Ok(false) => Err(end_open(rt, OpenFault::DiskFull)),
        Err(_) => Err(end_open(rt, OpenFault::System)),
    }
}

// Tries a start over a copy of the journal's tables. They are any tables, as above.
fn try_tables<S: Alter + Drop, T: Marked + Drop>(
    rt: &HostRuntime,
    conn: Connection<S>,
    directory: &Directory,
    config: &Buffers<T>,
    mendings: &Mendings,
    refusal: u8,
) -> Result<Tried, u8>
    ensures free { OnOk result (refusal ≡ 0) }
    ensures failed { IfErr result (λ status. status ≢ 0) }
{
    let copy = resume_ledger(rt, conn, io::sink())?;
    try_start(rt, directory, config, mendings, copy, refusal)
}

/// Tries a start over a copy of the files of a journal, and tells each of its faults. `refusal` is the status of what was told already, or 0.
/// The files stay as they are.
///
/// # Errors
///
/// The program's status, if the start has a fault or was refused already.
pub(crate) fn try_files<T: Marked + Drop>(
    rt: &HostRuntime,
    path: &str,
    log_path: &str,
    directory: &Directory,
    config: &Buffers<T>,
    mendings: &Mendings,
    refusal: u8,
) -> Result<Tried, u8>
    ensures free { OnOk result (refusal ≡ 0) }
    ensures failed { IfErr result (λ status. status ≢ 0) }
{
    match open_copied(rt, path, log_path) {
        Ok(conn) => try_tables(rt, conn, directory, config, mendings, refusal),
        Err(fault) => Err(first_status(refusal, end_open(rt, fault))),
    }
}

/// Opens the files of a journal, which are made if there are none, after a start was tried over a copy of them.
///
/// # Errors
///
/// The program's status, which is told.
pub(crate) fn open_files(
    rt: &HostRuntime,
    path: &str,
    log_path: &str,
    _tried: Tried,
) -> Result<Connection<FileStore<FileFrom<Wary>>>, u8>
    ensures { IfErr result (λ status. status ≢ 0) }
{
    test_room(rt, path)?;
    make_private(rt, path, log_path);
    match open(rt, path) {
        Ok(conn) => Ok(conn),
        Err(fault) => Err(end_open(rt, fault)),
    }
}
