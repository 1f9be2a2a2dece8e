// Calls that say nothing, so that the proof of a test does not carry the state of each.
use mgs_tables::{EventRow, Fault, OpenFault, RightsRow, RowChange, Text, TextRow};
use sqlite::{Alter, Connection, Error};
use std::alloc::Global;

// The rights of a buffer with these entries.
fn rights<'a>(name: &'a str, entries: &'a str) -> RightsRow<'a> {
    RightsRow {
        name,
        owner: "ann",
        owning_group: "staff",
        entries,
    }
}

// An event about a buffer.
fn event<'a>(what: &'a str, buffer: &'a str) -> EventRow<'a> {
    EventRow {
        at: 1_700_000_000,
        user: "ann",
        what,
        buffer,
        detail: "",
    }
}

/// Makes the tables.
pub(crate) fn make<S: Alter>(conn: &mut Connection<S>) -> Result<(), Error> {
    mgs_tables::make(conn)
}

/// Makes the tables, or finds those that are there.
pub(crate) fn prepare<S: Alter>(conn: &mut Connection<S>) -> Result<(), OpenFault> {
    mgs_tables::prepare(conn)
}

/// Runs statements.
pub(crate) fn batch<S: Alter>(conn: &mut Connection<S>, statements: &str) -> Result<(), Error> {
    conn.execute_batch(statements)
}

/// The version of the tables.
pub(crate) fn version<S: Alter>(conn: &mut Connection<S>) -> Result<i64, Error> {
    mgs_tables::version(conn)
}

/// Adds a buffer, and an event `create`.
pub(crate) fn add<S: Alter>(
    conn: &mut Connection<S>,
    name: &str,
    entries: &str,
) -> Result<(), Fault> {
    mgs_tables::put_changes(
        conn,
        &[RowChange::Add(rights(name, entries))],
        &[event("create", name)],
    )
}

/// Gives a buffer other entries, and adds an event `list`.
pub(crate) fn set<S: Alter>(
    conn: &mut Connection<S>,
    name: &str,
    entries: &str,
) -> Result<(), Fault> {
    mgs_tables::put_changes(
        conn,
        &[RowChange::Set(rights(name, entries))],
        &[event("list", name)],
    )
}

/// Takes a buffer out, and adds an event `kill`.
pub(crate) fn drop_one<S: Alter>(conn: &mut Connection<S>, name: &str) -> Result<(), Fault> {
    mgs_tables::put_changes(conn, &[RowChange::Drop(name)], &[event("kill", name)])
}

/// Keeps a text of a buffer, and adds an event `login` and an event `end`.
pub(crate) fn put_text<S: Alter>(
    conn: &mut Connection<S>,
    name: &str,
    modified: i64,
    file: i64,
    body: &str,
) -> Result<(), Fault> {
    let text = TextRow {
        name,
        modified,
        file,
        body,
    };
    mgs_tables::put_text(conn, &text, &[event("login", ""), event("end", "")])
}

/// The texts of all buffers.
pub(crate) fn texts<S: Alter>(
    conn: &mut Connection<S>,
    alloc: Global,
) -> Result<Vec<Option<Text>>, Error> {
    mgs_tables::read_texts(conn, alloc)
}

fn push_text(all: &mut String, alloc: Global, text: &Option<Text>) -> Result<(), Error> {
    match text {
        None => all.push_str("-/")?,
        Some(text) => {
            let line = format!(in alloc;
                "{} {} {}/",
                text.modified,
                text.file,
                text.body.as_str()
            )?;
            all.push_str(line.as_str())?;
        }
    }
    Ok(())
}

/// The texts of all buffers: of each whether it is modified, the sum of the file's and the text, or `-`, with a slash after each.
pub(crate) fn all_texts<S: Alter>(
    conn: &mut Connection<S>,
    alloc: Global,
) -> Result<String, Error> {
    let mut all = String::new(alloc);
    for text in &texts(conn, alloc)? {
        push_text(&mut all, alloc, text)?;
    }
    Ok(all)
}

/// Gives a buffer another owner and owning group and then other entries, with an event `owner` and an event `list`.
pub(crate) fn set_both<S: Alter>(
    conn: &mut Connection<S>,
    name: &str,
    owner: &str,
    entries: &str,
) -> Result<(), Fault> {
    let given = RightsRow {
        name,
        owner,
        owning_group: "",
        entries: "a",
    };
    mgs_tables::put_changes(
        conn,
        &[
            RowChange::Set(given),
            RowChange::Set(RightsRow { entries, ..given }),
        ],
        &[event("owner", name), event("list", name)],
    )
}

/// Takes a buffer out and adds another one of its name, with an event of each.
pub(crate) fn replace<S: Alter>(
    conn: &mut Connection<S>,
    name: &str,
    entries: &str,
) -> Result<(), Fault> {
    mgs_tables::put_changes(
        conn,
        &[RowChange::Drop(name), RowChange::Add(rights(name, entries))],
        &[event("kill", name), event("create", name)],
    )
}

/// Adds a buffer and takes another one out, with an event.
pub(crate) fn add_and_drop<S: Alter>(
    conn: &mut Connection<S>,
    added: &str,
    dropped: &str,
) -> Result<(), Fault> {
    mgs_tables::put_changes(
        conn,
        &[RowChange::Add(rights(added, "a")), RowChange::Drop(dropped)],
        &[event("create", added)],
    )
}

/// Adds an event by itself.
pub(crate) fn put<S: Alter>(conn: &mut Connection<S>, what: &str) -> Result<(), Fault> {
    mgs_tables::put_changes(conn, &[], &[event(what, "")])
}

/// Adds two events at once.
pub(crate) fn put_two<S: Alter>(
    conn: &mut Connection<S>,
    first: &str,
    second: &str,
) -> Result<(), Fault> {
    mgs_tables::put_changes(conn, &[], &[event(first, ""), event(second, "")])
}

/// The newest event's number.
pub(crate) fn newest<S: Alter>(conn: &mut Connection<S>) -> Result<i64, Error> {
    mgs_tables::newest(conn)
}

/// Runs a statement.
pub(crate) fn run<S: Alter>(conn: &mut Connection<S>, sql: &str) -> Result<usize, Error> {
    conn.execute(sql, &[])
}

/// All rights: of each buffer its name, its owner, its owning group and its entries, with a slash after each.
pub(crate) fn all_rights<S: Alter>(
    conn: &mut Connection<S>,
    alloc: Global,
) -> Result<String, Error> {
    let mut text = String::new(alloc);
    for rights in mgs_tables::read_rights(conn, alloc)? {
        for part in [
            &rights.name,
            &rights.owner,
            &rights.owning_group,
            &rights.entries,
        ] {
            text.push_str(part.as_str())?;
            text.push('/')?;
        }
    }
    Ok(text)
}

/// A page of at most so many events: of each its number, what was done and the buffer, with a slash after each.
pub(crate) fn page<S: Alter>(
    conn: &mut Connection<S>,
    alloc: Global,
    after: i64,
    most: u32,
) -> Result<String, Error> {
    let mut text = String::new(alloc);
    for event in mgs_tables::read_events(conn, alloc, after, most)? {
        let line = format!(in alloc;
            "{} {} {}/",
            event.number,
            event.what.as_str(),
            event.buffer.as_str()
        )?;
        text.push_str(line.as_str())?;
    }
    Ok(text)
}

/// The events after this number: of each its time, who did it, what was done, the buffer and the detail, with bars between and a line feed
/// after each.
pub(crate) fn told<S: Alter>(
    conn: &mut Connection<S>,
    alloc: Global,
    after: i64,
) -> Result<String, Error> {
    let mut text = String::new(alloc);
    for event in mgs_tables::read_events(conn, alloc, after, 99)? {
        let line = format!(in alloc;
            "{}|{}|{}|{}|{}\n",
            event.at,
            event.user.as_str(),
            event.what.as_str(),
            event.buffer.as_str(),
            event.detail.as_str()
        )?;
        text.push_str(line.as_str())?;
    }
    Ok(text)
}
