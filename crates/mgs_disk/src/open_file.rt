// How a file is opened for reading: one that ends.
use mgs_written::Opens;
use std::fs::{self, File, OpenFile};
use std::io::{self, ErrorKind};

/// The regular files of the disk. What they hold is not known to proofs.
#[derive(Drop)]
pub struct RegularFiles<'a, R> {
    rt: &'a R,
}

impl<'a, R> RegularFiles<'a, R> {
    /// Those of the disk.
    pub fn new(rt: &'a R) -> RegularFiles<'a, R> {
        RegularFiles { rt }
    }
}

impl<'a, R: fs::Files> Opens for RegularFiles<'a, R> {
    ghost use Rattle.std.specs.Prelude.{None};

    ghost holds = { λ files path. None };

    type File = R::File;

    // A pipe would make who opens it wait, and a device may never end, so what the path leads to is looked at first. Another may come to
    // stand there meanwhile: then what was opened is refused.
    fn open(&self, path: &str) -> io::Result<R::File> {
        if !fs::metadata(self.rt, path)?.is_file() {
            return Err(io::Error::from(ErrorKind::InvalidInput));
        }
        let file = File::open(self.rt, path)?;
        if !file.metadata()?.is_file() {
            return Err(io::Error::from(ErrorKind::InvalidInput));
        }
        Ok(file)
    }
}
