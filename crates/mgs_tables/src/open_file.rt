//! How the file of the tables is opened, and why it is refused.

ghost use Rattle.std.specs.Prelude.{◌≡◌, false, [], IfOk, OnOk};
ghost use Rattle.sqlite.specs.WalFiles.{image_at};
ghost use Rattle.sqlite.specs.Files.{file_state};
ghost use Rattle.sqlite.specs.State.{HasCleanDisk};
ghost use Rattle.sqlite.specs.Held.{state};
ghost use Rattle.mgs_tables.specs.Opening.{HasGrownFrom1, HasGrownFrom2, IsOurs, IsReady, IsOpen};
ghost use Rattle.mgs_tables.specs.Reading.{ShowsNumber};
ghost use Rattle.mgs_tables.specs.Texts.{count_tables, table_texts};

use crate::log_check::test_log;
use crate::schema::{grow_to_2, grow_to_3, make, object_count, table_count, version};
use sqlite::{Alter, Connection, Error, ErrorCode, FileFrom, FileStore, Files, Start, Wary};
use sqlite_std_file::OpenError;
use std::alloc::Global;
use std::{fs, io};

/// The version of the tables that this crate makes.
const VERSION: i64 = 3;

/// The version of the tables in which nobody was `-`.
const WITH_DASHES: i64 = 2;

/// The version of the tables that had no texts.
const WITHOUT_TEXTS: i64 = 1;

/// Why a file is refused. It is left as it is.
#[derive(Clone, Copy, Debug, PartialEq, Eq, thiserror::Error)]
pub enum OpenFault {
    /// It is no SQLite file, a page of it is not as it was written, or its rows break the rules of its tables.
    #[error("the file is damaged or no database")]
    Damaged,
    /// No crash leaves its log as it is.
    #[error("the log is damaged: no crash leaves it so")]
    DamagedLog,
    /// It is missing or empty, and its log is not that of a new file.
    #[error("the file is missing beside its log")]
    NoFile,
    /// A link or something else that is no regular file has its name or its log's.
    #[error("the file or its log is a link, or no regular file")]
    NotRegular,
    /// It is a SQLite file with other tables.
    #[error("the file is a database with other tables")]
    Foreign,
    /// Another process, or this one, has it open.
    #[error("another process has the file open")]
    Locked,
    /// Its tables are of a later version.
    #[error("the file is of a later version")]
    Newer,
    /// There is no memory.
    #[error("out of memory")]
    OutOfMemory,
    /// The disk is full.
    #[error("the disk is full")]
    DiskFull,
    /// The system does not open it, or fails to read or write it.
    #[error("the system does not open, read or write the file")]
    System,
}

impl From<Error> for OpenFault {
    ghost use Rattle.std.specs.Prelude.{◌≡◌};
    ghost use Rattle.mgs_tables.specs.Opening.{fault_of};

    ghost from_gives = { λ error fault. fault ≡ fault_of error };

    fn from(error: Error) -> OpenFault {
        match error {
            Error::SqliteFailure(ErrorCode::NotADatabase | ErrorCode::DatabaseCorrupt) =>
                OpenFault::Damaged,
            Error::SqliteFailure(ErrorCode::DatabaseBusy) => OpenFault::Locked,
            Error::SqliteFailure(ErrorCode::OutOfMemory) => OpenFault::OutOfMemory,
            Error::SqliteFailure(ErrorCode::DiskFull) => OpenFault::DiskFull,
            Error::SqliteFailure(_) => OpenFault::System,
            _ => OpenFault::Foreign,
        }
    }
}

// Refuses a file that has another number of the tables as they are made.
fn test_count<S: Alter>(conn: &mut Connection<S>, count: i64) -> Result<(), OpenFault>
    ensures tables { HasCleanDisk (state S.Store conn.new)
        → OnOk result (ShowsNumber count_tables table_texts (state S.Store conn.old) (state S.Store conn.new) count) }
    ensures clean { HasCleanDisk (state S.Store conn.new) → HasCleanDisk (state S.Store conn.old) }
{
    if table_count(conn)? != count {
        return Err(OpenFault::Foreign);
    }
    Ok(())
}

// Makes tables of version 2 ones of version 3, and refuses a file that has others.
fn bring_from_2<S: Alter>(conn: &mut Connection<S>) -> Result<(), OpenFault>
    ensures tables { HasCleanDisk (state S.Store conn.new) → OnOk result (HasGrownFrom2 S.Store conn.old conn.new) }
    ensures clean { HasCleanDisk (state S.Store conn.new) → HasCleanDisk (state S.Store conn.old) }
{
    test_count(conn, 4)?;
    grow_to_3(conn)?;
    Ok(())
}

// Makes tables of version 1 ones of version 3, and refuses a file that has others.
fn bring_from_1<S: Alter>(conn: &mut Connection<S>) -> Result<(), OpenFault>
    ensures tables { HasCleanDisk (state S.Store conn.new) → OnOk result (HasGrownFrom1 S.Store conn.old conn.new) }
    ensures clean { HasCleanDisk (state S.Store conn.new) → HasCleanDisk (state S.Store conn.old) }
{
    test_count(conn, 3)?;
    grow_to_2(conn)?;
    grow_to_3(conn)?;
    Ok(())
}

// Refuses a file that has other tables than those that `make` makes or made.
fn test_tables<S: Alter>(conn: &mut Connection<S>) -> Result<(), OpenFault>
    ensures tables { HasCleanDisk (state S.Store conn.new) → OnOk result (IsOurs S.Store conn.old conn.new) }
    ensures clean { HasCleanDisk (state S.Store conn.new) → HasCleanDisk (state S.Store conn.old) }
{
    let version = version(conn)?;
    if version > VERSION {
        return Err(OpenFault::Newer);
    }
    if version == VERSION {
        return test_count(conn, 4);
    }
    if version == WITH_DASHES {
        return bring_from_2(conn);
    }
    if version != WITHOUT_TEXTS {
        return Err(OpenFault::Foreign);
    }
    bring_from_1(conn)
}

/// Makes the tables if a file has nothing yet, makes those of an earlier version ones of version 3, and refuses a file with others.
///
/// # Errors
///
/// `Foreign` and `Newer` where the file is refused, which then is left as it is, and else what SQLite fails by.
pub fn prepare<S: Alter>(conn: &mut Connection<S>) -> Result<(), OpenFault>
    ensures ready { HasCleanDisk (state S.Store conn.new) → OnOk result (IsReady S.Store conn.old conn.new) }
    ensures clean { HasCleanDisk (state S.Store conn.new) → HasCleanDisk (state S.Store conn.old) }
{
    if object_count(conn)? == 0 {
        make(conn)?;
        return Ok(());
    }
    test_tables(conn)
}

/// As `open`, over what the file held by a reading of `start`. The file is locked first, so that one process alone has it open.
///
/// # Errors
///
/// As `open`.
pub fn open_over<S: Start>(
    rt: &HostRuntime,
    path: &str,
    start: S,
) -> Result<Connection<FileStore<FileFrom<S>>>, OpenFault>
    ensures { IfOk result (λ conn. HasCleanDisk (file_state conn) → IsOpen (image_at S.Start) conn) }
{
    let mut conn = match Connection::open_from(rt, path, true, start) {
        Ok(conn) => conn,
        Err((error, _)) => return Err(OpenFault::from(error)),
    };
    prepare(&mut conn)?;
    Ok(conn)
}

// What is supposed of the files as they are tested: nothing. It is a type of its own, since each pair that is opened has one.
#[derive(Drop)]
struct ToTest;

impl Start for ToTest {
    ghost log = { [] };

    ghost db = { [] };

    ghost is_mixing = { false };

    fn mixes() -> bool {
        false
    }
}

// The same as the log is taken over into the file.
#[derive(Drop)]
struct ToTakeOver;

impl Start for ToTakeOver {
    ghost log = { [] };

    ghost db = { [] };

    ghost is_mixing = { false };

    fn mixes() -> bool {
        false
    }
}

// The length of the file at a path, which no link leads to. `None`: there is none.
fn length_at<R: fs::Files>(rt: &R, path: &str) -> Result<Option<u64>, OpenFault> {
    match fs::symlink_metadata(rt, path) {
        Ok(found) if found.is_file() => Ok(Some(found.len())),
        Ok(_) => Err(OpenFault::NotRegular),
        Err(error) if error.kind() == io::ErrorKind::NotFound => Ok(None),
        Err(_) => Err(OpenFault::System),
    }
}

// Refuses a log whose file is missing, and a link at either name. It makes no file.
fn test_names<R: fs::Files>(rt: &R, path: &str, log_path: &str) -> Result<(), OpenFault> {
    let file = length_at(rt, path)?;
    let log = length_at(rt, log_path)?;
    match (file, log) {
        (None, Some(length)) if length > 0 => Err(OpenFault::NoFile),
        _ => Ok(()),
    }
}

// The path of the log beside a file.
fn log_path_of(alloc: Global, path: &str) -> Result<String, OpenFault> {
    match format!(in alloc; "{path}-wal") {
        Ok(log_path) => Ok(log_path),
        Err(_) => Err(OpenFault::OutOfMemory),
    }
}

// Tests the files under the lock that a server holds, and writes to neither.
fn test_pair<S: Start>(rt: &HostRuntime, path: &str, start: S) -> Result<(), OpenFault> {
    match sqlite_std_file::open(rt, path, start) {
        Ok(Files { mut log, mut db }) => test_log(rt.alloc(), &mut log, &mut db),
        Err(OpenError::Busy) => Err(OpenFault::Locked),
        Err(OpenError::OutOfMemory) => Err(OpenFault::OutOfMemory),
        Err(_) => Err(OpenFault::System),
    }
}

// Tests the files, whose log a crash must have been able to leave.
fn test_files(rt: &HostRuntime, path: &str) -> Result<(), OpenFault> {
    let log_path = log_path_of(rt.alloc(), path)?;
    test_names(rt, path, log_path.as_str())?;
    test_pair(rt, path, ToTest)
}

// Takes the log over into the file.
fn take_over(rt: &HostRuntime, path: &str) -> Result<(), OpenFault> {
    let conn = open_over(rt, path, ToTakeOver)?;
    conn.close()?;
    Ok(())
}

/// Opens the file of the tables, and makes it if there is none yet, with a sum at the end of each page, which each later open tests. The
/// log is tested first, and then taken over into the file, so that it is empty.
///
/// # Errors
///
/// `Damaged`, `DamagedLog`, `NoFile`, `NotRegular`, `Foreign`, `Locked` and `Newer` if the file is refused, which then is left as it is,
/// and `OutOfMemory`, `DiskFull` and `System` if there is no memory, no room or no leave to open it.
pub fn open(
    rt: &HostRuntime,
    path: &str,
) -> Result<Connection<FileStore<FileFrom<Wary>>>, OpenFault>
    ensures { IfOk result (λ conn. HasCleanDisk (file_state conn) → IsOpen (image_at ⟦<Wary as Start>⟧) conn) }
{
    test_files(rt, path)?;
    take_over(rt, path)?;
    open_over(rt, path, Wary)
}
