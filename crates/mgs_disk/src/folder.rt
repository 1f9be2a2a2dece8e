// The folder of a file that is replaced.
use crate::attributes::PRIVATE;
use std::fs::{self, File, OpenFile, OpenOptions};
use std::io::{self, ErrorKind};
use std::os::unix::fs::OpenOptionsExt;
use std::path::Path;
use std::random::RandomSource;

// How many names are tried for a new file. That one of so many is taken means that something is wrong.
const TRIES: usize = 16;

// Puts more behind a text that has room for it.
fn put(text: &mut String, more: &str) -> io::Result<()> {
    text.push_str(more)
        .map_err(|_| io::Error::from(ErrorKind::OutOfMemory))
}

// A digit of a number below 16.
fn digit(number: u8) -> &'static str {
    let at = (number & 15) as usize;
    &"0123456789abcdef"[at..at + 1]
}

// Spells a path beside a file, with a number that nobody foresees.
fn spell_beside<R: RandomSource>(rt: &R, path: Path<'_>, beside: &mut String) -> io::Result<()> {
    let mut bytes = [0; 8];
    rt.fill_bytes(&mut bytes)?;
    beside.clear();
    if let Some(folder) = path.parent() {
        put(beside, folder.to_string_lossy())?;
    }
    put(beside, "/.mgd-")?;
    for byte in bytes {
        put(beside, digit(byte >> 4))?;
        put(beside, digit(byte))?;
    }
    Ok(())
}

/// Makes an empty file beside another, which this process alone may open: it is made where nothing has its name, no link either. Its
/// path is spelled in the room that is lent.
pub(crate) fn create_beside<R: fs::Files + RandomSource>(
    rt: &R,
    path: Path<'_>,
    beside: &mut String,
) -> io::Result<R::File> {
    let mut how = OpenOptions::new();
    how.write(true).create_new(true).mode(PRIVATE);
    for _ in 0..TRIES {
        spell_beside(rt, path, beside)?;
        match how.open(rt, beside.as_str()) {
            Ok(file) => return Ok(file),
            Err(error) if error.kind() == ErrorKind::AlreadyExists => {}
            Err(error) => return Err(error),
        }
    }
    Err(io::Error::from(ErrorKind::AlreadyExists))
}

/// Waits until the disk has the names in a folder. Some file systems know no such call, and a folder may be closed to readers: then
/// nothing is done.
pub(crate) fn sync_names<R: fs::Files>(rt: &R, folder: Path<'_>) {
    if let Ok(folder) = File::open(rt, folder) {
        let _ = folder.sync_all();
    }
}
