// What a crash leaves of a text and of rights, over files in memory.
ghost use Rattle.std.specs.Prelude.{IfOk, IsTrue};
ghost use Rattle.sqlite_disk.specs.Memory.{memory_is_usable};

use crate::calls::{add, all_rights, all_texts, make, page, put_text, set_both};
use crate::log_check::{FRAME_LEN, HEADER_LEN};
use mgs_tables::open_copy;
use sqlite::{Alter, Connection, FileStore, Files, Options};
use sqlite_disk::{Disk, Memory};
use std::alloc::Global;
use std::test::Fail;

/// A file with these bytes.
pub(crate) fn file_of(alloc: Global, bytes: &[u8]) -> Result<Memory, Fail>
    ensures { IfOk result (λ file. IsTrue (memory_is_usable file)) }
{
    let mut file = Memory::new(alloc);
    file.write_at(0, bytes)?;
    Ok(file)
}

fn open(alloc: Global, log: Memory, db: Memory) -> Result<Connection<FileStore<Memory>>, Fail>
    requires log { IsTrue (memory_is_usable log) }
    requires db { IsTrue (memory_is_usable db) }
{
    match Connection::open_files(alloc, Files { log, db }, Options::new(1)) {
        Ok(conn) => Ok(conn),
        Err((error, _)) => Err(Fail::from(error)),
    }
}

// Makes tables with a buffer whose text is kept, and once more where that is asked. It is made of any store, since a call over files is
// dear to prove.
fn fill<S: Alter>(conn: &mut Connection<S>, is_twice: bool) -> Result<(), Fail> {
    make(conn)?;
    add(conn, "notes", "a")?;
    put_text(conn, "notes", 1, 7, "first")?;
    if is_twice {
        put_text(conn, "notes", 0, 8, "second")?;
    }
    Ok(())
}

// The files of these tables.
fn written(alloc: Global, is_twice: bool) -> Result<Files<Memory>, Fail> {
    let mut conn = open(alloc, Memory::new(alloc), Memory::new(alloc))?;
    fill(&mut conn, is_twice)?;
    Ok(conn.into_store().close())
}

// What is kept of the text by these files, where a log's first bytes are another log's.
fn text_after(
    alloc: Global,
    old: &Files<Memory>,
    new: &Files<Memory>,
    cut: usize,
) -> Result<String, Fail> {
    let mut log = file_of(alloc, old.log.bytes())?;
    let cut = cut.min(new.log.bytes().len());
    log.write_at(0, &new.log.bytes()[..cut])?;
    let mut conn = open(alloc, log, file_of(alloc, old.db.bytes())?)?;
    Ok(all_texts(&mut conn, alloc)?)
}

// Up to where two files are alike, from either end.
fn alike(a: &[u8], b: &[u8]) -> usize {
    let mut n = 0;
    for (x, y) in a.iter().zip(b) {
        if x != y {
            return n;
        }
        n = n.saturating_add(1);
    }
    n
}

// A log that is written as far as to any place has the text from before, and once it is written the new one.
#[test]
fn a_crash_leaves_the_old_text_or_the_new_one(rt: HostRuntime) -> Result<(), Fail> {
    let old = written(rt.alloc(), false)?;
    let new = written(rt.alloc(), true)?;
    let start = alike(old.log.bytes(), new.log.bytes());
    let end = new.log.bytes().len();
    assert!(rt; start < end);
    for part in [0, 1, 7, 15] {
        let cut = start.saturating_add((end.saturating_sub(start) / 16).saturating_mul(part));
        assert_eq!(rt;
            text_after(rt.alloc(), &old, &new, cut)?.as_str(),
            "1 7 first/"
        );
    }
    assert_eq!(rt;
        text_after(rt.alloc(), &old, &new, end)?.as_str(),
        "0 8 second/"
    );
    Ok(())
}

// Makes tables with a buffer, and changes its owner and its list by two changes of one event if that is asked.
fn fill_rights<S: Alter>(conn: &mut Connection<S>, is_set: bool) -> Result<(), Fail> {
    make(conn)?;
    add(conn, "notes", "a")?;
    if is_set {
        set_both(conn, "notes", "bob", "b")?;
    }
    Ok(())
}

// The files of these tables.
fn written_rights(alloc: Global, is_set: bool) -> Result<Files<Memory>, Fail> {
    let mut conn = open(alloc, Memory::new(alloc), Memory::new(alloc))?;
    fill_rights(&mut conn, is_set)?;
    Ok(conn.into_store().close())
}

// What the tables hold: the rights and the events from before the event, those from after it, or anything else.
#[derive(Clone, Copy, PartialEq)]
enum Found {
    Before,
    After,
    Between,
}

// Reads the rights and the events after the first one.
fn find<S: Alter>(conn: &mut Connection<S>, alloc: Global) -> Result<Found, Fail> {
    let rights = all_rights(conn, alloc)?;
    let events = page(conn, alloc, 1, 9)?;
    if rights.as_str() == "notes/ann/staff/a/" && events.is_empty() {
        return Ok(Found::Before);
    }
    if rights.as_str() == "notes/bob//b/" && events.as_str() == "2 owner notes/3 list notes/" {
        return Ok(Found::After);
    }
    Ok(Found::Between)
}

// What SQLite recovers from these files.
fn found_in(alloc: Global, log: Memory, db: &[u8]) -> Result<Found, Fail>
    requires { IsTrue (memory_is_usable log) }
{
    let mut conn = open(alloc, log, file_of(alloc, db)?)?;
    find(&mut conn, alloc)
}

// What is found in these files if they are tested and opened as at a start. It fails if they are refused.
fn found_at_start(alloc: Global, log: &[u8], db: &[u8]) -> Result<Found, Fail> {
    let mut conn = open_copy(alloc, log, db)?;
    find(&mut conn, alloc)
}

// The offset after the last byte by which two files differ.
fn end_of_change(a: &[u8], b: &[u8]) -> usize {
    let (mut at, mut end) = (0usize, 0usize);
    for (x, y) in a.iter().zip(b) {
        at = at.saturating_add(1);
        if x != y {
            end = at;
        }
    }
    end
}

// The offset of the gate of the frame in which this byte is. The gate is written last.
fn gate_at(at: usize) -> usize {
    let frame = at.saturating_sub(HEADER_LEN) / FRAME_LEN;
    HEADER_LEN
        .saturating_add(frame.saturating_mul(FRAME_LEN))
        .saturating_add(8)
}

// The first bytes of a log.
fn cut_log(alloc: Global, new: &[u8], cut: usize) -> Result<Memory, Fail>
    ensures { IfOk result (λ log. IsTrue (memory_is_usable log)) }
{
    let (written, _) = new.split_at(new.len().min(cut));
    file_of(alloc, written)
}

// The first bytes of the new log, and after them those of the old one.
fn torn_log(alloc: Global, old: &[u8], new: &[u8], cut: usize) -> Result<Memory, Fail>
    ensures { IfOk result (λ log. IsTrue (memory_is_usable log)) }
{
    let (written, _) = new.split_at(new.len().min(cut));
    let mut log = file_of(alloc, old)?;
    log.write_at(0, written)?;
    Ok(log)
}

// The logs before and after the event, and the file beside both.
#[derive(Clone, Copy)]
struct Logs<'a> {
    old: &'a [u8],
    new: &'a [u8],
    db: &'a [u8],
}

// What is found if the log ends here.
fn found_if_cut(alloc: Global, logs: &Logs<'_>, cut: usize) -> Result<Found, Fail> {
    found_in(alloc, cut_log(alloc, logs.new, cut)?, logs.db)
}

// What is found if the log is written up to here, and the rest of it is as before.
fn found_if_torn(alloc: Global, logs: &Logs<'_>, cut: usize) -> Result<Found, Fail> {
    found_in(alloc, torn_log(alloc, logs.old, logs.new, cut)?, logs.db)
}

// What is found at a start if the log is written up to here, but for the gate.
fn found_before_gate(
    alloc: Global,
    logs: &Logs<'_>,
    cut: usize,
    gate: usize,
) -> Result<Found, Fail> {
    let mut log = torn_log(alloc, logs.old, logs.new, cut)?;
    log.write_at(gate, &[0])?;
    found_at_start(alloc, log.bytes(), logs.db)
}

// Whether the tables are as before the event at each end of the log from `start` up to `end`.
fn is_before_if_cut(
    alloc: Global,
    logs: &Logs<'_>,
    start: usize,
    end: usize,
) -> Result<bool, Fail> {
    for cut in start..end {
        if found_if_cut(alloc, logs, cut)? != Found::Before {
            return Ok(false);
        }
    }
    Ok(true)
}

// Whether two files have the same byte here, so that a log that is written up to it is the same as one that is written after it.
fn is_same_byte(logs: &Logs<'_>, at: usize) -> bool {
    logs.old.get(at) == logs.new.get(at)
}

// Whether the tables are as before the event if the log is torn here, with its gate and without it.
fn is_before_if_torn_at(
    alloc: Global,
    logs: &Logs<'_>,
    cut: usize,
    gate: usize,
) -> Result<bool, Fail> {
    if is_same_byte(logs, cut) {
        return Ok(true);
    }
    Ok(
        found_if_torn(alloc, logs, cut)? == Found::Before
            && found_before_gate(alloc, logs, cut, gate)? == Found::Before,
    )
}

// Whether that is so at each place from `start` up to `end`.
fn is_before_if_torn(
    alloc: Global,
    logs: &Logs<'_>,
    start: usize,
    end: usize,
) -> Result<bool, Fail> {
    for cut in start..end {
        if !is_before_if_torn_at(alloc, logs, cut, gate_at(start))? {
            return Ok(false);
        }
    }
    Ok(true)
}

// Whether the tables are as after the event once its bytes are written: if the log ends with them, and at a start, but for the gate.
fn is_after_at_end(alloc: Global, logs: &Logs<'_>, end: usize, gate: usize) -> Result<bool, Fail> {
    Ok(
        found_if_cut(alloc, logs, end)? == Found::After
            && found_before_gate(alloc, logs, end, gate)? == Found::Before
            && found_at_start(alloc, logs.new, logs.db)? == Found::After,
    )
}

// Whether the event is there with its last byte, and no part of it before that. It has more than one frame.
fn is_all_or_none(alloc: Global, logs: &Logs<'_>) -> Result<bool, Fail> {
    let start = alike(logs.old, logs.new);
    let end = end_of_change(logs.old, logs.new);
    if end <= start.saturating_add(FRAME_LEN) {
        return Ok(false);
    }
    Ok(
        is_before_if_cut(alloc, logs, start, end)?
            && is_before_if_torn(alloc, logs, start, end)?
            && is_after_at_end(alloc, logs, end, gate_at(start))?,
    )
}

// An owner and a list that are changed in one event, with its two events: the log is cut at every byte of that transaction. The bytes
// after the cut are missing, or they are as before.
#[test]
fn a_crash_never_parts_a_list_from_its_owner(rt: HostRuntime) -> Result<(), Fail> {
    let old = written_rights(rt.alloc(), false)?;
    let new = written_rights(rt.alloc(), true)?;
    let logs = Logs {
        old: old.log.bytes(),
        new: new.log.bytes(),
        db: old.db.bytes(),
    };
    assert!(&rt; is_all_or_none(rt.alloc(), &logs)?);
    Ok(())
}
