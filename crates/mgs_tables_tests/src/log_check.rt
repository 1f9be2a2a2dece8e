// Logs that are damaged, and copies of both files.
use crate::calls::{add, all_rights, make, put_text, set};
use crate::crash::file_of;
use mgs_tables::{Fault, OpenFault, open_copy, test_log};
use sqlite::{Alter, Connection, Files, Options};
use sqlite_disk::{Disk, Memory};
use std::alloc::Global;
use std::test::Fail;

/// The length of a frame, and of the header before the frames.
pub(crate) const FRAME_LEN: usize = 4120;

pub(crate) const HEADER_LEN: usize = 32;

// Makes the tables if there are none, and changes rights and a text.
fn fill<S: Alter>(conn: &mut Connection<S>, name: &str) -> Result<(), Fault> {
    let _ = make(conn);
    add(conn, name, "ALLOW user ann READ")?;
    put_text(conn, name, 1, 7, "first")?;
    set(conn, name, "DENY user bob READ")?;
    Ok(())
}

// Both files.
type Pair = Files<Memory>;

// The files with these changes, whose log is not taken over.
fn written(alloc: Global, old: &Pair, name: &str) -> Result<Pair, Fail> {
    let log = file_of(alloc, old.log.bytes())?;
    let db = file_of(alloc, old.db.bytes())?;
    let mut conn = match Connection::open_files(alloc, Files { log, db }, Options::new(1)) {
        Ok(conn) => conn,
        Err((error, _)) => return Err(Fail::from(error)),
    };
    fill(&mut conn, name)?;
    Ok(conn.into_store().close())
}

// Whether these files pass if the log has this byte there.
fn passes_with(alloc: Global, files: &Pair, at: usize, byte: u8) -> Result<bool, Fail> {
    let mut log = file_of(alloc, files.log.bytes())?;
    let mut db = file_of(alloc, files.db.bytes())?;
    log.write_at(at, &[byte])?;
    Ok(test_log(alloc, &mut log, &mut db).is_ok())
}

// How many of the changes of the lowest bit of a log's bytes from here to there are passed over.
fn flips(alloc: Global, files: &Pair, from: usize, to: usize) -> Result<u32, Fail> {
    let mut passed = 0u32;
    for at in from..to {
        let Some(byte) = files.log.bytes().get(at) else {
            return Ok(passed);
        };
        if passes_with(alloc, files, at, byte ^ 1)? {
            passed = passed.saturating_add(1);
        }
    }
    Ok(passed)
}

// How many frames a log has: those up to one that names no page.
fn frame_count(log: &[u8]) -> usize {
    let mut count = 0usize;
    for i in 0..1000usize {
        let at = HEADER_LEN.saturating_add(i.saturating_mul(FRAME_LEN));
        match log.get(at.saturating_add(3)) {
            Some(byte) if *byte != 0 => count = i.saturating_add(1),
            _ => return count,
        }
    }
    count
}

// A bit of each byte of the header, of a frame's header and of the start of its content is changed. One change alone cannot be told from a
// crash: that of the last transaction's gate, which then is as it is before it is opened.
#[test]
fn a_changed_bit_is_refused(rt: HostRuntime) -> Result<(), Fail> {
    let alloc = rt.alloc();
    let none = Files {
        log: Memory::new(alloc),
        db: Memory::new(alloc),
    };
    let files = written(alloc, &none, "notes")?;
    let count = frame_count(files.log.bytes());
    assert!(&rt; count > 5);
    assert_eq!(&rt; flips(alloc, &files, 0, HEADER_LEN)?, 0);
    let mut passed = 0u32;
    for i in 0..count {
        let at = HEADER_LEN.saturating_add(i.saturating_mul(FRAME_LEN));
        passed = passed.saturating_add(flips(alloc, &files, at, at.saturating_add(26))?);
    }
    assert_eq!(&rt; passed, 1);
    Ok(())
}

// What the files say of rights, in memory.
fn rights_in(alloc: Global, log: &[u8], db: &[u8]) -> Result<String, OpenFault> {
    let mut conn = open_copy(alloc, log, db)?;
    Ok(all_rights(&mut conn, alloc)?)
}

// A copy is read as the files are, and one that is damaged or without its file is refused.
#[test]
fn a_copy_is_read_or_refused(rt: HostRuntime) -> Result<(), Fail> {
    let alloc = rt.alloc();
    let none = Files {
        log: Memory::new(alloc),
        db: Memory::new(alloc),
    };
    let files = written(alloc, &none, "notes")?;
    let (log, db) = (files.log.bytes(), files.db.bytes());
    assert_eq!(&rt;
        rights_in(alloc, log, db)?.as_str(),
        "notes/ann/staff/DENY user bob READ/"
    );
    assert_eq!(&rt; rights_in(alloc, log, &[]), Err(OpenFault::NoFile));
    assert_eq!(&rt; rights_in(alloc, &[0x37], db), Err(OpenFault::DamagedLog));
    Ok(())
}
