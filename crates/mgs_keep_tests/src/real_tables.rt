// A buffer that is killed and made again under its name is another buffer in the tables too, and at the next start.
use crate::office::{list_of, press, sit, users};
use mgs_buffers::Buffers;
use mgs_journal::Journal;
use mgs_keeper::start;
use mgs_ledger::{AuditFault, Filter, Ledger, audit};
use mgs_marks::PlainMarked;
use mgs_resume::join;
use mgs_store::RefusingStore;
use mgs_wire::Served;
use sqlite::{Alter, Connection, Error};
use std::alloc::Global;
use std::io::{self, Write};
use std::process::Abort;
use std::test::Fail;
use std::time::{Clock, Duration};

// A clock that stands still.
#[derive(Drop)]
struct Still;

impl Clock for Still {
    fn monotonic(&self) -> io::Result<Duration> {
        Ok(Duration::from_secs(1_795_915_353))
    }

    fn since_1970(&self) -> io::Result<Duration> {
        self.monotonic()
    }
}

// A writer that takes all.
#[derive(Drop)]
struct Sink;

impl Write for Sink {
    fn write(&mut self, buf: &[u8]) -> io::Result<usize> {
        Ok(buf.len())
    }

    fn flush(&mut self) -> io::Result<()> {
        Ok(())
    }
}

// The configuration: `secret` of ann, with a file, which bob may delete and not read.
fn configured(alloc: Global, rt: &impl Abort) -> Buffers<PlainMarked> {
    let mut buffers = Buffers::new(alloc);
    let list = list_of(&["ALLOW ann rwatdcCo", "ALLOW bob td"], rt);
    assert!(rt;
        buffers
            .add("secret", "ann", None, list, &['s', 'x'], true)
            .is_ok()
    );
    buffers
}

// Starts a server with any journal, presses keys as bob, and returns the journal.
fn play<J: Journal + Drop>(
    alloc: Global,
    journal: J,
    keys: &[&[u8]],
    rt: &impl Abort,
) -> Option<J> {
    let config = configured(alloc, rt);
    let users = users(alloc, rt);
    let Ok(mut server) = start(alloc, users, &config, RefusingStore::new(), journal) else {
        return None;
    };
    let bob = sit(&mut server, "bob", rt);
    for part in keys {
        press(&mut server, bob, part);
        server.tell_ended();
    }
    Some(server.into_journal())
}

// Whether the first of these buffers is `secret`, is owned by bob, and is empty and without a file.
fn is_bobs_own(buffers: &Buffers<PlainMarked>) -> bool {
    let Some(rights) = buffers.rights(0) else {
        return false;
    };
    if !buffers.has(rights.name) {
        return false;
    }
    let found = buffers.find(rights.name);
    rights.name.as_bytes() == b"secret".as_slice()
        && rights.owners.owner.as_bytes() == b"bob".as_slice()
        && found.text_len() == 0
        && !found.has_file()
}

// Whether a start with any journal serves `secret` as bob's own buffer.
fn serves_bobs_own<J: Journal>(alloc: Global, journal: &J, rt: &impl Abort) -> bool {
    let config = configured(alloc, rt);
    match join(alloc, &users(alloc, rt), &config, journal) {
        Ok(buffers) => is_bobs_own(&buffers),
        Err(_) => false,
    }
}

// Plays keys with the ledger of any tables, and returns the tables.
fn play_tables<S: Alter + Drop>(
    alloc: Global,
    conn: Connection<S>,
    keys: &[&[u8]],
    rt: &impl Abort,
) -> Option<Connection<S>> {
    let ledger = Ledger::resume(conn, alloc, Still, Sink).ok()?;
    play(alloc, ledger, keys, rt)?.close().ok()
}

// Whether a start with the ledger of any tables serves `secret` as bob's own buffer.
fn next_serves_bobs_own<S: Alter + Drop>(
    alloc: Global,
    conn: Connection<S>,
    rt: &impl Abort,
) -> bool {
    match Ledger::resume(conn, alloc, Still, Sink) {
        Ok(ledger) => serves_bobs_own(alloc, &ledger, rt),
        Err(_) => false,
    }
}

// The lines of all events of any tables.
fn lines<S: Alter>(alloc: Global, conn: &mut Connection<S>) -> Result<Vec<u8>, AuditFault> {
    let mut out = Vec::new(alloc);
    let all = Filter {
        user: None,
        buffer: None,
        since: None,
    };
    audit(conn, alloc, &all, &mut out)?;
    Ok(out)
}

// Whether the events say that bob killed `secret` and made it.
fn is_told<S: Alter>(alloc: Global, conn: &mut Connection<S>) -> Result<bool, Fail> {
    let text = String::from_utf8(lines(alloc, conn)?)?;
    Ok(text.contains("\tbob\tkill\tsecret\t") && text.contains("\tbob\tcreate\tsecret\tbob: "))
}

// The number of texts that are not empty, in any tables.
fn text_count<S: Alter>(conn: &mut Connection<S>) -> Result<i64, Error> {
    conn.query_row("SELECT count(*) FROM text WHERE body <> ''", &[])?
        .get(0)
}

// Whether bob gets a buffer of his own by these keys, in any tables.
fn remakes_in<S: Alter + Drop>(
    alloc: Global,
    conn: Connection<S>,
    keys: &[&[u8]],
    rt: &impl Abort,
) -> Result<bool, Fail> {
    let Some(mut conn) = play_tables(alloc, conn, keys, rt) else {
        return Ok(false);
    };
    let is_told = is_told(alloc, &mut conn)?;
    let count = text_count(&mut conn)?;
    Ok(is_told && count == 0 && next_serves_bobs_own(alloc, conn, rt))
}

// The same in new tables.
fn remakes(alloc: Global, keys: &[&[u8]], rt: &impl Abort) -> Result<bool, Fail> {
    let mut conn = Connection::open_in_memory(alloc)?;
    mgs_tables::make(&mut conn)?;
    remakes_in(alloc, conn, keys, rt)
}

// One key kills it and makes it again.
#[test]
fn one_key_makes_another_buffer(rt: HostRuntime) -> Result<(), Fail> {
    assert!(rt;
        remakes(
            rt.alloc(),
            &[
                b"\x18bsecr\r",
                b"\x18(\x18ksecr\t\r\x18bsecret\r\x18)",
                b"\x18e"
            ],
            &rt
        )?
    );
    Ok(())
}

// So do two keys, each an event.
#[test]
fn two_keys_make_another_buffer(rt: HostRuntime) -> Result<(), Fail> {
    assert!(rt;
        remakes(
            rt.alloc(),
            &[b"".as_slice(), b"\x18ksecret\r", b"\x18bsecret\r"],
            &rt
        )?
    );
    Ok(())
}
