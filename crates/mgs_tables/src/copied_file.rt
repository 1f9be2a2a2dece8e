//! How a copy of the file of the tables is opened, in memory.

ghost use Rattle.std.specs.Prelude.{◌≡◌, IfOk, IsTrue, OnOk};
ghost use Rattle.sqlite_disk.specs.Memory.{memory_bytes, memory_is_usable};
ghost use Rattle.mgs_tables.specs.LogCheck.{IsLog, HasFile};

use crate::log_check::test_log;
use crate::open_file::{OpenFault, prepare};
use sqlite::{Connection, FileStore, Files, Options};
use sqlite_disk::{Disk, Memory};
use std::alloc::Global;
use std::io;

// A file in memory with these bytes.
fn filled(alloc: Global, bytes: &[u8]) -> io::Result<Memory>
    ensures usable { IfOk result (λ m. IsTrue (memory_is_usable m)) }
    ensures bytes { IfOk result (λ m. memory_bytes m ≡ bytes.now) }
{
    let mut memory = Memory::new(alloc);
    memory.write_at(0, bytes)?;
    memory.sync()?;
    Ok(memory)
}

/// Opens the tables that a log and a database file hold, in memory: the bytes of both, as a crash leaves them. Tables of an older
/// version grow there, and the files that the bytes were read from stay as they are.
///
/// # Errors
///
/// As `open`.
pub fn open_copy(
    alloc: Global,
    log: &[u8],
    db: &[u8],
) -> Result<Connection<FileStore<Memory>>, OpenFault>
    ensures whole { OnOk result (IsLog log.now db.now × HasFile log.now db.now) }
{
    let Ok(mut log) = filled(alloc, log) else {
        return Err(OpenFault::OutOfMemory);
    };
    let Ok(mut db) = filled(alloc, db) else {
        return Err(OpenFault::OutOfMemory);
    };
    test_log(alloc, &mut log, &mut db)?;
    let mut conn = match Connection::open_files(alloc, Files { log, db }, Options::new(1)) {
        Ok(conn) => conn,
        Err((error, _)) => return Err(OpenFault::from(error)),
    };
    prepare(&mut conn)?;
    Ok(conn)
}
