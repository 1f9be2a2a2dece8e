// The files of a journal, read whether or not a server has them open. Nothing is written, and no lock is taken.
use crate::folder::log_path;
use mgs_tables::{OpenFault, open_copy};
use sqlite::{Connection, FileStore};
use sqlite_disk::Memory;
use std::fs::{self, File};
use std::io::{self, ErrorKind, Read};
use std::os::unix::fs::{FileExt, MetadataExt};

// The bytes of the log by which it is known: a new log has another salt.
const HEADER: usize = 32;

// How often both files are read at most.
const TRIES: usize = 20;

// The bytes of both files, as they recover to what stood at one commit.
#[derive(Drop)]
struct Copy {
    log: Vec<u8>,
    db: Vec<u8>,
}

// Opens a regular file that no link leads to, to read it. `None`: there is none.
fn open_named(rt: &HostRuntime, path: &str) -> io::Result<Option<File>> {
    let named = match fs::symlink_metadata(rt, path) {
        Ok(named) => named,
        Err(error) if error.kind() == ErrorKind::NotFound => return Ok(None),
        Err(error) => return Err(error),
    };
    if !named.is_file() {
        return Err(ErrorKind::Unsupported.into());
    }
    let file = File::open(rt, path)?;
    let found = file.metadata()?;
    if found.dev() != named.dev() || found.ino() != named.ino() {
        return Err(ErrorKind::Unsupported.into());
    }
    Ok(Some(file))
}

// The first bytes of a log, 32 of them if it has so many.
fn head_of(rt: &HostRuntime, log: &File) -> io::Result<Vec<u8>> {
    let mut head = vec![in rt.alloc(); 0; HEADER]?;
    let length = log.read_at(&mut head, 0)?;
    head.truncate(length);
    Ok(head)
}

fn bytes_of(rt: &HostRuntime, file: &mut File) -> io::Result<Vec<u8>> {
    let mut bytes = Vec::new(rt.alloc());
    file.read_to_end(&mut bytes)?;
    Ok(bytes)
}

// Whether a log is the one that began with these bytes, or is still too short to be known.
fn is_same_log(head: &[u8], log: &[u8]) -> bool {
    if head.len() < HEADER {
        return head == log;
    }
    log.starts_with(head)
}

// Reads a database that has no log, if there is none after it was read either.
fn copy_alone(rt: &HostRuntime, mut db: File, log_path: &str) -> io::Result<Option<Copy>> {
    let db = bytes_of(rt, &mut db)?;
    if open_named(rt, log_path)?.is_some() {
        return Ok(None);
    }
    let log = Vec::new(rt.alloc());
    Ok(Some(Copy { log, db }))
}

// Looks at the log, then reads the database and then the log: each page of the database that is newer is in that log too, as long as it is
// the same one. `None`: the log was begun anew in between.
fn copy_once(rt: &HostRuntime, path: &str, log_path: &str) -> io::Result<Option<Copy>> {
    let log = open_named(rt, log_path)?;
    let Some(mut db) = open_named(rt, path)? else {
        return Err(ErrorKind::NotFound.into());
    };
    let Some(mut log) = log else {
        return copy_alone(rt, db, log_path);
    };
    let head = head_of(rt, &log)?;
    let db = bytes_of(rt, &mut db)?;
    let log = bytes_of(rt, &mut log)?;
    if !is_same_log(head.as_slice(), log.as_slice()) {
        return Ok(None);
    }
    Ok(Some(Copy { log, db }))
}

// Why the files are not read.
fn fault_of(error: &io::Error) -> OpenFault {
    match error.kind() {
        ErrorKind::NotFound => OpenFault::NoFile,
        ErrorKind::Unsupported => OpenFault::NotRegular,
        ErrorKind::OutOfMemory => OpenFault::OutOfMemory,
        _ => OpenFault::System,
    }
}

// Whether files that are written while they are read can be refused for this.
fn may_pass(fault: OpenFault) -> bool {
    matches!(
        fault,
        OpenFault::Damaged | OpenFault::DamagedLog | OpenFault::NoFile | OpenFault::Locked
    )
}

// Opens a copy of both files in memory, if they can be read as they are at one moment.
fn open_once(
    rt: &HostRuntime,
    path: &str,
    log_path: &str,
) -> Result<Connection<FileStore<Memory>>, OpenFault> {
    match copy_once(rt, path, log_path) {
        Ok(Some(copy)) => open_copy(rt.alloc(), copy.log.as_slice(), copy.db.as_slice()),
        Ok(None) => Err(OpenFault::Locked),
        Err(error) => Err(fault_of(&error)),
    }
}

/// Opens a copy of the journal in memory, as it is at one commit.
///
/// # Errors
///
/// As `mgs_tables::open`; `Locked` if a server began its log anew at each of twenty tries.
pub(crate) fn open_live(
    rt: &HostRuntime,
    path: &str,
) -> Result<Connection<FileStore<Memory>>, OpenFault> {
    let Ok(log_path) = log_path(rt, path) else {
        return Err(OpenFault::OutOfMemory);
    };
    let mut last = OpenFault::Locked;
    for _ in 0..TRIES {
        match open_once(rt, path, log_path.as_str()) {
            Ok(conn) => return Ok(conn),
            Err(fault) if may_pass(fault) => last = fault,
            Err(fault) => return Err(fault),
        }
    }
    Err(last)
}

/// Opens tables in memory that have nothing.
pub(crate) fn open_none(rt: &HostRuntime) -> Result<Connection<FileStore<Memory>>, OpenFault> {
    open_copy(rt.alloc(), &[], &[])
}
