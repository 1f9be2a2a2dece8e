// Files that are found by their paths.
ghost use Rattle.std.specs.Prelude.{◌≡◌, IfOk, IfSome, take};

use crate::file_reader::{read_start, read_whole};
use std::alloc::Global;
use std::io::{self, Read};

/// Where files are found.
pub trait Opens {
    ghost use Rattle.std.specs.Prelude.{◌≡◌, ℕ, List, Option, Some, IfOk, IfSome};

    // The bytes of the file at a path, where they are known.
    ghost holds: { Self → List ℕ → Option (List ℕ) };

    /// A file that is open.
    type File: Read + Drop;

    /// Opens the regular file at a path for reading.
    fn open(&self, path: &str) -> io::Result<Self::File>
        ensures { IfOk result (λ file. IfSome (holds self.now path.now) (λ bytes. Self.File.remaining file ≡ Some bytes)) };
}

/// All bytes of the file at a path.
pub fn read_at<O: Opens>(opens: &O, alloc: Global, path: &str) -> io::Result<Vec<u8>>
    ensures { IfOk result (λ bytes. IfSome (O.holds opens.now path.now) (λ all. bytes.items ≡ all)) }
{
    let mut file = opens.open(path)?;
    read_whole(alloc, &mut file)
}

/// The first bytes of the file at a path, up to a limit or its end.
pub fn read_start_at<O: Opens>(
    opens: &O,
    alloc: Global,
    path: &str,
    limit: u64,
) -> io::Result<Vec<u8>>
    ensures { IfOk result (λ bytes. IfSome (O.holds opens.now path.now) (λ all. bytes.items ≡ take limit all)) }
{
    let file = opens.open(path)?;
    read_start(alloc, file, limit)
}
