// A disk of tests, which tells its steps and fails at one of them.
ghost use Rattle.std.specs.Prelude.{◌≡◌, ◌+◌, ◌-◌, ◌^◌, min};
ghost use Rattle.mgs_written.specs.Steps.{failed_after};

use mgs_disk::Finds;
use mgs_written::Replaces;
use std::alloc::{AllocError, Global};
use std::cell::RefCell;
use std::io::{self, ErrorKind};
use std::path::{Path, PathBuf};

/// A disk on which every path leads to a file of the folder `/f`. The steps that may fail are done so many times, and the next is not.
#[derive(Drop)]
pub(crate) struct StandIn<'a> {
    alloc: Global,
    told: &'a RefCell<String>,
    left: usize,
    failed: u64,
}

impl<'a> StandIn<'a> {
    /// A disk whose steps are told here.
    pub(crate) fn new(alloc: Global, told: &'a RefCell<String>, left: usize) -> StandIn<'a> {
        StandIn {
            alloc,
            told,
            left,
            failed: 0,
        }
    }

    // Tells a step, and what it is about.
    fn tell(&self, step: &str, about: &str) {
        if let Ok(mut told) = self.told.try_borrow_mut() {
            let _ = told.push_str(step);
            let _ = told.push_str(about);
            let _ = told.push('.');
        }
    }

    // Counts a step that failed.
    fn count_failure(&mut self)
        ensures { self.new.failed ≡ min (self.old.failed + 1) (2 ^ 64 - 1) }
    {
        self.failed = self.failed.saturating_add(1);
    }

    // A step that may fail: then it is not told, and is counted.
    fn try_step(&mut self, step: &str, about: &str) -> io::Result<()>
        ensures { self.new.failed ≡ failed_after result self.old.failed }
    {
        if self.left == 0 {
            self.count_failure();
            return Err(io::Error::from(ErrorKind::PermissionDenied));
        }
        self.left -= 1;
        self.tell(step, about);
        Ok(())
    }
}

// A text of these characters.
fn spell(alloc: Global, text: &[char]) -> io::Result<String> {
    let mut spelled = String::new(alloc);
    for c in text {
        spelled.push(*c)?;
    }
    Ok(spelled)
}

impl<'a> Finds for StandIn<'a> {
    ghost use Rattle.std.specs.Prelude.{None};

    ghost leads = { λ disk path. None };

    fn find(&self, path: &str) -> Result<Option<PathBuf>, AllocError> {
        Ok(Some(Path::new("/f").join(self.alloc, path)?))
    }
}

impl<'a> Replaces for StandIn<'a> {
    ghost use Rattle.std.specs.Prelude.{None};

    ghost done = { λ disk. None };

    ghost failed = { λ disk. disk.failed };

    fn create(&mut self, path: Path<'_>, _len: usize) -> io::Result<()> {
        self.try_step("create ", path.as_str())
    }

    fn write(&mut self, _room: &mut String, text: &[char]) -> io::Result<()> {
        match spell(self.alloc, text) {
            Ok(written) => self.try_step("write ", written.as_str()),
            Err(error) => {
                self.count_failure();
                Err(error)
            }
        }
    }

    fn give_group(&mut self) {
        self.tell("group", "");
    }

    fn give_mode(&mut self) -> io::Result<()> {
        self.try_step("mode", "")
    }

    fn give_owner(&mut self) {
        self.tell("owner", "");
    }

    fn sync(&mut self) -> io::Result<()> {
        self.try_step("sync", "")
    }

    fn rename(&mut self, path: Path<'_>) -> io::Result<()> {
        self.try_step("rename ", path.as_str())
    }

    fn sync_folder(&mut self, folder: Path<'_>) {
        self.tell("folder ", folder.as_str());
    }

    fn discard(&mut self) {
        self.tell("discard", "");
    }
}
