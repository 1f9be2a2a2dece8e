// A runtime whose files are those of the system, but for what it is told to get wrong, and whose arguments and standard error are a test's.
use std::alloc::{Allocator, Global};
use std::cell::Cell;
use std::env::{Env, FillError};
use std::fmt::Display;
use std::fs::{File, Files, Metadata, OpenOptions};
use std::io::{self, ErrorKind};
use std::path::PathBuf;
use std::random::RandomSource;

/// A runtime of a program that was started with these words, which blanks part, its own name first.
#[derive(Drop)]
pub(crate) struct Faulty<'a, R> {
    rt: &'a R,
    words: &'a str,
    line: &'a str,
    is_told: Cell<bool>,
    zeros: Cell<u32>,
    keeps_names: Cell<bool>,
}

impl<'a, R> Faulty<'a, R> {
    /// Nothing goes wrong. This line is to be told, or nothing where it is empty.
    pub(crate) fn new(rt: &'a R, words: &'a str, line: &'a str) -> Faulty<'a, R> {
        Faulty {
            rt,
            words,
            line,
            is_told: Cell::new(line.is_empty()),
            zeros: Cell::new(0),
            keeps_names: Cell::new(false),
        }
    }

    /// Whether what is to be told was the last that was told.
    pub(crate) fn is_told(&self) -> bool {
        self.is_told.get()
    }

    /// The next random bytes are 0, for so many calls.
    pub(crate) fn give_zeros(&self, calls: u32) {
        self.zeros.set(calls);
    }

    /// From now on nothing is renamed.
    pub(crate) fn keep_names(&self) {
        self.keeps_names.set(true);
    }
}

impl<'a, R> Env for Faulty<'a, R> {
    fn arg(&self, i: usize, buf: &mut [u8]) -> Result<usize, FillError> {
        let Some(word) = self.words.split(' ').nth(i) else {
            return Err(FillError::NotPresent);
        };
        let bytes = word.as_bytes();
        if bytes.len() > buf.len() {
            return Err(FillError::TooLong);
        }
        buf[..bytes.len()].copy_from_slice(bytes);
        Ok(bytes.len())
    }

    fn var(&self, _name: &str, _buf: &mut [u8]) -> Result<usize, FillError> {
        Err(FillError::NotPresent)
    }

    fn var_at(&self, _i: usize, _buf: &mut [u8]) -> Result<usize, FillError> {
        Err(FillError::NotPresent)
    }
}

impl<'a, R: AllocGlobal> Eprint for Faulty<'a, R> {
    fn eprint<D: Display + Drop>(&self, value: D) -> io::Result<()> {
        let text = format!(in self.rt.alloc(); "{value}")?;
        self.is_told.set(text.as_str() == self.line);
        Ok(())
    }

    fn eprintln<D: Display + Drop>(&self, value: D) -> io::Result<()> {
        self.eprint(value)
    }
}

impl<'a, R: RandomSource> RandomSource for Faulty<'a, R> {
    fn fill_bytes(&self, buf: &mut [u8]) -> io::Result<()> {
        let zeros = self.zeros.get();
        if zeros == 0 {
            return self.rt.fill_bytes(buf);
        }
        self.zeros.set(zeros - 1);
        buf.fill(0);
        Ok(())
    }
}

impl<'a, R: AllocGlobal> Alloc for Faulty<'a, R> {
    type A = Global;

    fn alloc(&self) -> Global {
        self.rt.alloc()
    }
}

impl<'a, R: Files<File = File>> Files for Faulty<'a, R> {
    type File = File;

    type Dir = R::Dir;

    fn open_file(&self, how: &OpenOptions, path: &str) -> io::Result<File> {
        self.rt.open_file(how, path)
    }

    fn open_dir(&self, path: &str) -> io::Result<R::Dir> {
        self.rt.open_dir(path)
    }

    fn metadata(&self, path: &str) -> io::Result<Metadata> {
        self.rt.metadata(path)
    }

    fn symlink_metadata(&self, path: &str) -> io::Result<Metadata> {
        self.rt.symlink_metadata(path)
    }

    fn copy(&self, from: &str, to: &str) -> io::Result<u64> {
        self.rt.copy(from, to)
    }

    fn rename(&self, from: &str, to: &str) -> io::Result<()> {
        if self.keeps_names.get() {
            return Err(io::Error::from(ErrorKind::PermissionDenied));
        }
        self.rt.rename(from, to)
    }

    fn remove_file(&self, path: &str) -> io::Result<()> {
        self.rt.remove_file(path)
    }

    fn create_dir(&self, path: &str) -> io::Result<()> {
        self.rt.create_dir(path)
    }

    fn remove_dir(&self, path: &str) -> io::Result<()> {
        self.rt.remove_dir(path)
    }

    fn remove_dir_all<B: Allocator>(&self, alloc: B, path: &str) -> io::Result<()> {
        self.rt.remove_dir_all(alloc, path)
    }

    fn canonicalize<B: Allocator>(&self, alloc: B, path: &str) -> io::Result<PathBuf<B>> {
        self.rt.canonicalize(alloc, path)
    }
}
