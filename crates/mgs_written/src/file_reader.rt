// How a file is read: to its end, or up to a limit.
ghost use Rattle.std.specs.Prelude.{◌≡◌, IfOk, OnOk, IfSome, take};
ghost use Rattle.std.specs.Io.KnownBytes.{IsAtEnd};

use std::alloc::Global;
use std::io::{self, Read};

/// All bytes of a reader, up to its end.
pub fn read_whole<R: Read>(alloc: Global, reader: &mut R) -> io::Result<Vec<u8>>
    ensures bytes { IfOk result (λ bytes. IfSome (R.remaining reader.old) (λ all. bytes.items ≡ all)) }
    ensures end { OnOk result (IsAtEnd (R.remaining reader.new)) }
{
    let mut bytes = Vec::new(alloc);
    reader.read_to_end(&mut bytes)?;
    Ok(bytes)
}

/// The first bytes of a reader, up to a limit or its end.
pub fn read_start<R: Read + Drop>(alloc: Global, reader: R, limit: u64) -> io::Result<Vec<u8>>
    ensures { IfOk result (λ bytes. IfSome (R.remaining reader) (λ all. bytes.items ≡ take limit all)) }
{
    let mut bytes = Vec::new(alloc);
    reader.take(limit).read_to_end(&mut bytes)?;
    Ok(bytes)
}
