// The folder of the journal.
use std::alloc::AllocError;
use std::fs::{self, File, Files, OpenOptions};
use std::io::{self, Write};
use std::os::unix::fs::{MetadataExt, OpenOptionsExt, PermissionsExt};

// The bits that let group and others read, write and enter.
const OTHERS: u32 = 0o077;

// The mode of the journal's file: its owner's alone.
const PRIVATE: u32 = 0o600;

// The bytes for which the disk has to have room at a start, and those that are written at once.
const ROOM: usize = 65536;

const ROOM_PART: usize = 4096;

// What the system tells of this process, with the number of its user.
const SELF: &str = "/proc/self";

/// Whether a path is that of a folder, and no link to one, of the user who runs this, with no right for group and others.
pub(crate) fn is_private_folder<R: Files>(rt: &R, path: &str) -> io::Result<bool> {
    let own = fs::metadata(rt, SELF)?.uid();
    let folder = fs::symlink_metadata(rt, path)?;
    Ok(folder.is_dir() && folder.uid() == own && folder.mode() & OTHERS == 0)
}

/// The path of the journal's file in a folder.
pub(crate) fn journal_path<R: AllocGlobal>(rt: &R, folder: &str) -> Result<String, AllocError> {
    let mut path = String::new(rt.alloc());
    path.push_str(folder)?;
    path.push_str("/journal.sqlite3")?;
    Ok(path)
}

/// The path of the log beside the journal's file.
pub(crate) fn log_path<R: AllocGlobal>(rt: &R, path: &str) -> Result<String, AllocError> {
    let mut log_path = String::new(rt.alloc());
    log_path.push_str(path)?;
    log_path.push_str("-wal")?;
    Ok(log_path)
}

// Whether something stands in the log beside a journal.
fn has_log<R: Files>(rt: &R, log_path: &str) -> bool {
    match fs::symlink_metadata(rt, log_path) {
        Ok(log) => !log.is_file() || log.len() > 0,
        Err(_) => false,
    }
}

/// Makes an empty file for the journal, which only its owner may read and write, if there is none, unless a log stands beside it: then the
/// journal was taken away, which the open refuses. SQLite gives its log the same mode.
pub(crate) fn make_private<R: Files>(rt: &R, path: &str, log_path: &str) {
    if has_log(rt, log_path) {
        return;
    }
    let mut how = OpenOptions::new();
    how.write(true).create_new(true).mode(PRIVATE);
    let _ = how.open(rt, path);
}

/// The path of the file that tests the room on the disk, beside the journal's.
pub(crate) fn room_path<R: AllocGlobal>(rt: &R, path: &str) -> Result<String, AllocError> {
    let mut room_path = String::new(rt.alloc());
    room_path.push_str(path)?;
    room_path.push_str("-room")?;
    Ok(room_path)
}

// Writes zeros to a file, and waits until the disk has them.
fn fill(file: &mut File) -> io::Result<()> {
    let zeros = [0u8; ROOM_PART];
    for _ in 0..ROOM / ROOM_PART {
        file.write_all(&zeros)?;
    }
    file.sync_all()
}

// Whether an error says that the disk, or what this user may have of it, is full.
fn is_full(error: &io::Error) -> bool {
    const EDQUOT: i32 = 122;
    match error.raw_os_error() {
        Some(number) => number == libc::ENOSPC || number == EDQUOT,
        None => false,
    }
}

// Makes an empty file, in the place of one that a start left here that was killed.
fn make_room_file<R: Files<File = File>>(rt: &R, path: &str) -> io::Result<File> {
    let _ = fs::remove_file(rt, path);
    let mut how = OpenOptions::new();
    how.write(true).create_new(true).mode(PRIVATE);
    how.open(rt, path)
}

/// Whether the disk has room for 64 KB, by a file that is written and removed again.
pub(crate) fn has_room<R: Files<File = File>>(rt: &R, path: &str) -> io::Result<bool> {
    let filled = match make_room_file(rt, path) {
        Ok(mut file) => fill(&mut file),
        Err(error) => Err(error),
    };
    let _ = fs::remove_file(rt, path);
    match filled {
        Ok(()) => Ok(true),
        Err(error) if is_full(&error) => Ok(false),
        Err(error) => Err(error),
    }
}
