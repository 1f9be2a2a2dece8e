// How the disk finds files, and puts new ones in their places.
ghost use Rattle.std.specs.Prelude.{◌≡◌, ◌<◌, ◌↔◌, IsTrue};
ghost use Rattle.mgs_written.specs.Steps.{failed_after};

use crate::attributes::{Gives, give_group, give_mode, give_owner, may_be_replaced};
use crate::folder::{create_beside, sync_names};
use crate::save_places::Finds;
use libc::types::rlimit;
use mgs_written::{Replaces, write_text};
use std::alloc::AllocError;
use std::fs::{self, Metadata, OpenFile};
use std::io::{self, ErrorKind};
use std::path::{Path, PathBuf};
use std::random::RandomSource;

// The number of the limit on the size of files, which libc does not name.
const RLIMIT_FSIZE: i32 = 1;

// How many bytes the path of a new file may have.
const PATH_ROOM: usize = 8192;

// The file that is to be replaced. None: there is none. It is an error where something else stands there, or a file that its owner may
// not write.
fn file_at<R: fs::Files>(rt: &R, path: Path<'_>) -> io::Result<Option<Metadata>> {
    match fs::symlink_metadata(rt, path) {
        Ok(old) if may_be_replaced(&old) => Ok(Some(old)),
        Ok(_) => Err(io::Error::from(ErrorKind::PermissionDenied)),
        Err(error) if error.kind() == ErrorKind::NotFound => Ok(None),
        Err(error) => Err(error),
    }
}

// Whether a file may not be of this length.
fn is_above(limit: &rlimit, len: u64) -> bool
    ensures { IsTrue result ↔ limit.now.rlim_cur < len }
{
    limit.rlim_cur < len
}

// Whether this process may write no file of this length. The system would end it by a signal, which nothing here can catch.
fn is_past_limit(len: u64) -> bool {
    let mut limit = rlimit {
        rlim_cur: 0,
        rlim_max: 0,
    };
    libc::getrlimit(RLIMIT_FSIZE, &mut limit) == 0 && is_above(&limit, len)
}

/// The files of the disk that buffers are saved in. No save takes memory: the room for a new file's path is made at the start. What
/// files hold is not known to proofs.
#[derive(Drop)]
pub struct DiskFiles<'a, R: fs::Files> {
    rt: &'a R,
    beside: String,
    new: Option<R::File>,
    old: Option<Metadata>,
    failed: u64,
}

impl<'a, R: fs::Files + AllocGlobal> DiskFiles<'a, R> {
    /// The files of the disk, of which none is replaced yet.
    pub fn new(rt: &'a R) -> Result<DiskFiles<'a, R>, AllocError> {
        Ok(DiskFiles {
            rt,
            beside: String::with_capacity(rt.alloc(), PATH_ROOM)?,
            new: None,
            old: None,
            failed: 0,
        })
    }
}

impl<'a, R: fs::Files + AllocGlobal> Finds for DiskFiles<'a, R> {
    ghost use Rattle.std.specs.Prelude.{None};

    ghost leads = { λ files path. None };

    fn find(&self, path: &str) -> Result<Option<PathBuf>, AllocError> {
        match fs::canonicalize(self.rt, path) {
            Ok(path) => Ok(Some(path)),
            Err(error) if error.kind() == ErrorKind::OutOfMemory => Err(AllocError),
            Err(_) => Ok(None),
        }
    }
}

// What is told where no new file was made.
fn none_made() -> io::Error {
    io::Error::from(ErrorKind::NotFound)
}

// Counts a step, if it failed.
fn count(failed: &mut u64, step: io::Result<()>) -> io::Result<()>
    ensures same { result ≡ step }
    ensures counted { failed.new ≡ failed_after step failed.old }
{
    if step.is_err() {
        *failed = failed.saturating_add(1);
    }
    step
}

impl<'a, R: fs::Files + RandomSource> DiskFiles<'a, R>
where
    R::File: Gives,
{
    // Makes an empty file beside the one at a path, for so many bytes.
    fn make(&mut self, path: Path<'_>, len: usize) -> io::Result<()>
        ensures { self.exit.now.failed ≡ self.entry.now.failed }
    {
        self.old = file_at(self.rt, path)?;
        if is_past_limit(len as u64) {
            return Err(io::Error::from(ErrorKind::FileTooLarge));
        }
        self.new = Some(create_beside(self.rt, path, &mut self.beside)?);
        Ok(())
    }

    // Puts the new file in the place of the one at a path.
    fn put(&mut self, path: Path<'_>) -> io::Result<()>
        ensures { self.exit.now.failed ≡ self.entry.now.failed }
    {
        fs::rename(self.rt, self.beside.as_str(), path)?;
        self.new = None;
        Ok(())
    }
}

impl<'a, R: fs::Files + RandomSource> Replaces for DiskFiles<'a, R>
where
    R::File: Gives,
{
    ghost use Rattle.std.specs.Prelude.{None};

    ghost done = { λ files. None };

    ghost failed = { λ files. files.failed };

    fn create(&mut self, path: Path<'_>, len: usize) -> io::Result<()> {
        let made = self.make(path, len);
        count(&mut self.failed, made)
    }

    fn write(&mut self, room: &mut String, text: &[char]) -> io::Result<()> {
        let written = match &mut self.new {
            Some(new) => write_text(new, room, text),
            None => Err(none_made()),
        };
        count(&mut self.failed, written)
    }

    fn give_group(&mut self) {
        give_group(self.new.as_ref(), self.old.as_ref());
    }

    fn give_mode(&mut self) -> io::Result<()> {
        let given = match &self.new {
            Some(new) => give_mode(new, self.old.as_ref()),
            None => Err(none_made()),
        };
        count(&mut self.failed, given)
    }

    fn give_owner(&mut self) {
        give_owner(self.new.as_ref(), self.old.as_ref());
    }

    fn sync(&mut self) -> io::Result<()> {
        let synced = match &self.new {
            Some(new) => new.sync_all(),
            None => Err(none_made()),
        };
        count(&mut self.failed, synced)
    }

    fn rename(&mut self, path: Path<'_>) -> io::Result<()> {
        let renamed = self.put(path);
        count(&mut self.failed, renamed)
    }

    fn sync_folder(&mut self, folder: Path<'_>) {
        sync_names(self.rt, folder);
    }

    fn discard(&mut self) {
        self.new = None;
        let _ = fs::remove_file(self.rt, self.beside.as_str());
    }
}
