// A runtime whose files are none, and which tells what is asked of them.
use mgs_disk::Gives;
use std::alloc::{Allocator, Global};
use std::cell::RefCell;
use std::fmt::Display;
use std::fs::{Files, Metadata, OpenFile, OpenOptions, Permissions};
use std::io::{self, ErrorKind, Read, Seek, SeekFrom, Write};
use std::os::unix::fs::PermissionsExt;
use std::path::{Path, PathBuf};
use std::random::RandomSource;
use std::str;

// The most bytes that a file takes at once.
const AT_ONCE: usize = 2;

// Tells a step, and what it is about.
fn tell(told: &RefCell<String>, step: &str, about: impl Display + Drop) {
    if let Ok(mut told) = told.try_borrow_mut() {
        let _ = write!(told, "{step} {about}.");
    }
}

// What a call answers that is not made here.
fn unasked<T>() -> io::Result<T> {
    Err(io::Error::from(ErrorKind::Unsupported))
}

/// A file that keeps nothing.
#[derive(Drop)]
pub(crate) struct Noted<'a> {
    told: &'a RefCell<String>,
    syncs: bool,
}

impl<'a> Read for Noted<'a> {
    fn read(&mut self, _buf: &mut [u8]) -> io::Result<usize> {
        Err(io::Error::from(ErrorKind::Unsupported))
    }
}

impl<'a> Write for Noted<'a> {
    fn write(&mut self, buf: &[u8]) -> io::Result<usize> {
        let taken = buf.len().min(AT_ONCE);
        tell(
            self.told,
            "write",
            str::from_utf8(&buf[..taken]).unwrap_or("?"),
        );
        Ok(taken)
    }

    fn flush(&mut self) -> io::Result<()> {
        unasked()
    }
}

impl<'a> Seek for Noted<'a> {
    fn seek(&mut self, _to: SeekFrom) -> io::Result<u64> {
        unasked()
    }
}

impl<'a> OpenFile for Noted<'a> {
    fn metadata(&self) -> io::Result<Metadata> {
        unasked()
    }

    fn set_len(&self, _size: u64) -> io::Result<()> {
        unasked()
    }

    fn sync_all(&self) -> io::Result<()> {
        if !self.syncs {
            return unasked();
        }
        tell(self.told, "sync", "all");
        Ok(())
    }

    fn sync_data(&self) -> io::Result<()> {
        unasked()
    }

    fn set_permissions(&self, perm: Permissions) -> io::Result<()> {
        tell(self.told, "mode", perm.mode());
        Ok(())
    }
}

impl<'a> Gives for Noted<'a> {
    fn give_to(&self, user: Option<u32>, group: Option<u32>) -> io::Result<()> {
        match (user, group) {
            (None, Some(group)) => tell(self.told, "group", group),
            (Some(user), None) => tell(self.told, "owner", user),
            _ => tell(self.told, "both", "or none"),
        }
        Ok(())
    }
}

/// A runtime in which a file stands at every path, with mode, owner and group of one of the system.
#[derive(Drop)]
pub(crate) struct Noting<'a, R> {
    rt: &'a R,
    model: Path<'a>,
    told: &'a RefCell<String>,
    syncs: bool,
}

impl<'a, R> Noting<'a, R> {
    /// One that tells what is asked of its files here, and whose files are as this one of the system; the disk has them where it syncs.
    pub(crate) fn new(
        rt: &'a R,
        model: Path<'a>,
        told: &'a RefCell<String>,
        syncs: bool,
    ) -> Noting<'a, R> {
        Noting {
            rt,
            model,
            told,
            syncs,
        }
    }
}

impl<'a, R> RandomSource for Noting<'a, R> {
    fn fill_bytes(&self, buf: &mut [u8]) -> io::Result<()> {
        buf.fill(0);
        Ok(())
    }
}

impl<'a, R: AllocGlobal> Alloc for Noting<'a, R> {
    type A = Global;

    fn alloc(&self) -> Global {
        self.rt.alloc()
    }
}

impl<'a, R: Files + AllocGlobal> Files for Noting<'a, R> {
    type File = Noted<'a>;

    type Dir = R::Dir;

    fn open_file(&self, how: &OpenOptions, path: &str) -> io::Result<Noted<'a>> {
        match (how.asks_read(), how.asks_write(), how.asks_create_new()) {
            (false, true, true) => tell(self.told, "make", path),
            (true, false, false) => tell(self.told, "open", path),
            _ => return unasked(),
        }
        Ok(Noted {
            told: self.told,
            syncs: self.syncs,
        })
    }

    fn open_dir(&self, _path: &str) -> io::Result<R::Dir> {
        unasked()
    }

    fn metadata(&self, _path: &str) -> io::Result<Metadata> {
        unasked()
    }

    fn symlink_metadata(&self, _path: &str) -> io::Result<Metadata> {
        self.rt.symlink_metadata(self.model.as_str())
    }

    fn copy(&self, _from: &str, _to: &str) -> io::Result<u64> {
        unasked()
    }

    fn rename(&self, from: &str, to: &str) -> io::Result<()> {
        tell(self.told, "from", from);
        tell(self.told, "to", to);
        Ok(())
    }

    fn remove_file(&self, path: &str) -> io::Result<()> {
        tell(self.told, "remove", path);
        Ok(())
    }

    fn create_dir(&self, _path: &str) -> io::Result<()> {
        unasked()
    }

    fn remove_dir(&self, _path: &str) -> io::Result<()> {
        unasked()
    }

    fn remove_dir_all<B: Allocator>(&self, _alloc: B, _path: &str) -> io::Result<()> {
        unasked()
    }

    fn canonicalize<B: Allocator>(&self, alloc: B, path: &str) -> io::Result<PathBuf<B>> {
        Ok(PathBuf::from_str(alloc, path)?)
    }
}
