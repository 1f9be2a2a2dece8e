// The files of the journal, as they were when they were opened.
use crate::folder::log_path;
use std::fs::{self, Files};
use std::io::{self, ErrorKind};
use std::os::unix::fs::MetadataExt;
use std::time::{Clock, Duration};

// The seconds between two looks at the files.
const INTERVAL: u64 = 1;

// Which file has a name: its device and its number there.
#[derive(Clone, Copy, PartialEq, Eq)]
struct Identity {
    device: u64,
    number: u64,
}

// The file that has a name, or the link.
fn identity_at<R: Files>(rt: &R, path: &str) -> io::Result<Identity> {
    let found = fs::symlink_metadata(rt, path)?;
    Ok(Identity {
        device: found.dev(),
        number: found.ino(),
    })
}

/// Tells once a second whether the files that are open still have their names.
#[derive(Drop)]
pub(crate) struct Watch {
    path: String,
    log_path: String,
    file: Identity,
    log: Identity,
    // When the files were looked at last.
    last: Duration,
}

impl Watch {
    /// Notes which files have the names of the journal and its log, right after they were opened.
    pub(crate) fn new<R: Files + AllocGlobal + Clock>(rt: &R, path: &str) -> io::Result<Watch> {
        let log_path = log_path(rt, path)?;
        let file = identity_at(rt, path)?;
        let log = identity_at(rt, log_path.as_str())?;
        let last = rt.monotonic()?;
        let mut own = String::new(rt.alloc());
        own.push_str(path)?;
        Ok(Watch {
            path: own,
            log_path,
            file,
            log,
            last,
        })
    }

    // Whether both names are those of the files that were noted.
    fn is_same<R: Files>(&self, rt: &R) -> io::Result<bool> {
        Ok(
            identity_at(rt, self.path.as_str())? == self.file
                && identity_at(rt, self.log_path.as_str())? == self.log,
        )
    }

    /// Whether a file was moved, removed or replaced. It looks once a second at most. If there is no memory to look, it looks again later; if
    /// the system does not let it look, the file counts as moved.
    pub(crate) fn is_moved<R: Files + Clock>(&mut self, rt: &R) -> bool {
        let Ok(now) = rt.monotonic() else {
            return false;
        };
        if now.saturating_sub(self.last).as_secs() < INTERVAL {
            return false;
        }
        self.last = now;
        match self.is_same(rt) {
            Ok(is_same) => !is_same,
            Err(error) => error.kind() != ErrorKind::OutOfMemory,
        }
    }
}
