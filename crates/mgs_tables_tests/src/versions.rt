// Which tables are taken, and what becomes of those of an earlier version, over memory.
use crate::calls::{
    all_texts, batch, drop_one, make, newest, prepare, put_text, run, told, version,
};
use mgs_tables::OpenFault;
use sqlite::{Connection, MemStore};
use std::alloc::Global;
use std::test::Fail;

/// The tables of version 1 to the letter, with a buffer and its event.
const OLD: &str = "CREATE TABLE format (version INTEGER NOT NULL) STRICT; \
    CREATE TABLE buffer (id INTEGER PRIMARY KEY, name TEXT NOT NULL UNIQUE, owner TEXT NOT NULL, owning_group TEXT NOT NULL, entries TEXT NOT NULL) STRICT; \
    CREATE TABLE event (number INTEGER PRIMARY KEY, at INTEGER NOT NULL, user TEXT NOT NULL, what TEXT NOT NULL, buffer TEXT NOT NULL, detail TEXT NOT NULL) STRICT; \
    INSERT INTO format (version) VALUES (1); \
    INSERT INTO buffer (name, owner, owning_group, entries) VALUES ('notes', 'ann', '', ''); \
    INSERT INTO event (at, user, what, buffer, detail) VALUES (7, 'ann', 'create', 'notes', '')";

fn old(alloc: Global) -> Result<Connection<MemStore>, Fail> {
    let mut conn = Connection::open_in_memory(alloc)?;
    batch(&mut conn, OLD)?;
    Ok(conn)
}

#[test]
fn a_journal_without_texts_gets_a_table_for_them(rt: HostRuntime) -> Result<(), Fail> {
    let mut conn = old(rt.alloc())?;
    prepare(&mut conn)?;
    assert_eq!(rt; version(&mut conn)?, 3);
    assert_eq!(rt;
        told(&mut conn, rt.alloc(), 0)?.as_str(),
        "7|ann|create|notes|\n7||is|notes|ann: -\n"
    );
    assert_eq!(rt; all_texts(&mut conn, rt.alloc())?.as_str(), "-/");
    put_text(&mut conn, "notes", 1, 0, "a")?;
    prepare(&mut conn)?;
    assert_eq!(rt; all_texts(&mut conn, rt.alloc())?.as_str(), "1 0 a/");
    drop_one(&mut conn, "notes")?;
    assert_eq!(rt; run(&mut conn, "DELETE FROM text")?, 0);
    Ok(())
}

#[test]
fn tables_that_are_made_are_found(rt: HostRuntime) -> Result<(), Fail> {
    let mut conn = Connection::open_in_memory(rt.alloc())?;
    prepare(&mut conn)?;
    prepare(&mut conn)?;
    assert_eq!(rt; version(&mut conn)?, 3);
    assert_eq!(rt; newest(&mut conn)?, 0);
    Ok(())
}

#[test]
fn other_tables_are_refused_and_left(rt: HostRuntime) -> Result<(), Fail> {
    let mut conn = old(rt.alloc())?;
    run(&mut conn, "UPDATE format SET version = 2")?;
    assert_eq!(rt; prepare(&mut conn), Err(OpenFault::Foreign));
    run(&mut conn, "UPDATE format SET version = 3")?;
    assert_eq!(rt; prepare(&mut conn), Err(OpenFault::Foreign));
    run(&mut conn, "UPDATE format SET version = 0")?;
    assert_eq!(rt; prepare(&mut conn), Err(OpenFault::Foreign));
    run(&mut conn, "UPDATE format SET version = 4")?;
    assert_eq!(rt; prepare(&mut conn), Err(OpenFault::Newer));
    run(&mut conn, "UPDATE format SET version = 1")?;
    run(&mut conn, "CREATE TABLE text (a INTEGER)")?;
    assert_eq!(rt; prepare(&mut conn), Err(OpenFault::Foreign));
    assert_eq!(rt; version(&mut conn)?, 1);
    let mut conn = Connection::open_in_memory(rt.alloc())?;
    make(&mut conn)?;
    run(&mut conn, "DROP TABLE event")?;
    assert_eq!(rt; prepare(&mut conn), Err(OpenFault::Foreign));
    Ok(())
}

/// What makes tables of version 2 of new ones, with two buffers, and with events by nobody and by a user.
const DASHES: &str = "UPDATE format SET version = 2; \
    INSERT INTO buffer (name, owner, owning_group, entries) VALUES ('todo', 'bob', 'staff', 'ALLOW OWNER@ rw\nDENY bob w\n'); \
    INSERT INTO buffer (name, owner, owning_group, entries) VALUES ('notes', 'ann', '', ''); \
    INSERT INTO event (at, user, what, buffer, detail) VALUES (9, '-', 'create', 'todo', ''); \
    INSERT INTO event (at, user, what, buffer, detail) VALUES (8, 'ann', 'create', 'notes', '')";

// Nobody is the empty text from then on, and the rights of each buffer are told in the order of creation, once.
#[test]
fn a_journal_with_dashes_tells_its_rights(rt: HostRuntime) -> Result<(), Fail> {
    let mut conn = Connection::open_in_memory(rt.alloc())?;
    make(&mut conn)?;
    batch(&mut conn, DASHES)?;
    prepare(&mut conn)?;
    prepare(&mut conn)?;
    assert_eq!(rt; version(&mut conn)?, 3);
    assert_eq!(rt;
        told(&mut conn, rt.alloc(), 0)?.as_str(),
        "9||create|todo|\n8|ann|create|notes|\n\
         8||is|todo|bob:staff ALLOW OWNER@ rw; DENY bob w\n8||is|notes|ann: -\n"
    );
    Ok(())
}
