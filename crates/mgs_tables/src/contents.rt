//! What the tables hold, read back.

ghost use Rattle.std.specs.Prelude.{◌≡◌, [], ◌∷◌, map, pos, IfOk};
ghost use Rattle.sqlite.specs.declared.types.Value.TheVariants.{Int};
ghost use Rattle.sqlite.specs.State.{HasCleanDisk, Survives, CommitsShowing};
ghost use Rattle.sqlite.specs.Held.{state};
ghost use Rattle.mgs_tables.specs.Texts.{select_rights, select_events};
ghost use Rattle.mgs_tables.specs.Reading.{ShowsRights, ShowsEvents};
ghost use Rattle.mgs_tables.specs.Rows.{rights_read, rights_columns, event_read, event_columns};

use crate::rows::{Event, Rights};
use sqlite::{Alter, Connection, Error, Row, params};
use std::alloc::Global;

fn rights_of(row: &Row) -> Result<Rights, Error>
    ensures { IfOk result (λ rights. rights_read rights ≡ rights_columns row.now) }
{
    Ok(Rights {
        name: row.get(0)?,
        owner: row.get(1)?,
        owning_group: row.get(2)?,
        entries: row.get(3)?,
    })
}

fn event_of(row: &Row) -> Result<Event, Error>
    ensures { IfOk result (λ event. event_read event ≡ event_columns row.now) }
{
    Ok(Event {
        number: row.get(0)?,
        at: row.get(1)?,
        user: row.get(2)?,
        what: row.get(3)?,
        buffer: row.get(4)?,
        detail: row.get(5)?,
    })
}

fn all_rights(alloc: Global, rows: &[Row]) -> Result<Vec<Rights>, Error>
    ensures { IfOk result (λ all. map rights_read all.items ≡ map rights_columns rows.now) }
{
    let mut all = Vec::with_capacity(alloc, rows.len())?;
    for row in rows {
        all.push(rights_of(row)?)?;
    }
    Ok(all)
}

fn all_events(alloc: Global, rows: &[Row]) -> Result<Vec<Event>, Error>
    ensures { IfOk result (λ all. map event_read all.items ≡ map event_columns rows.now) }
{
    let mut all = Vec::with_capacity(alloc, rows.len())?;
    for row in rows {
        all.push(event_of(row)?)?;
    }
    Ok(all)
}

/// The rights of all buffers, in the order in which the buffers were added. It fails where SQLite refuses or fails, where a value is of
/// another type, and for want of memory.
pub fn read_rights<S: Alter>(conn: &mut Connection<S>, alloc: Global) -> Result<Vec<Rights>, Error>
    ensures shown { HasCleanDisk (state S.Store conn.new)
        → IfOk result (λ all. ShowsRights (state S.Store conn.old) (state S.Store conn.new) all.items) }
    ensures survives { Survives (state S.Store conn.old) (state S.Store conn.new) (CommitsShowing select_rights [] (state S.Store conn.old)) }
{
    let rows = conn.query_all(
        "SELECT name, owner, owning_group, entries FROM buffer ORDER BY id",
        &[],
    )?;
    all_rights(alloc, rows.as_slice())
}

/// At most so many of the events with a greater number, oldest first: a page. The first page is that after 0, and the next one that after
/// the last number that was read. It fails where SQLite refuses or fails, where a value is of another type, and for want of memory.
pub fn read_events<S: Alter>(
    conn: &mut Connection<S>,
    alloc: Global,
    after: i64,
    most: u32,
) -> Result<Vec<Event>, Error>
    ensures shown { HasCleanDisk (state S.Store conn.new)
        → IfOk result (λ all. ShowsEvents (Int after ∷ Int (pos most) ∷ []) (state S.Store conn.old) (state S.Store conn.new) all.items) }
    ensures survives { Survives (state S.Store conn.old) (state S.Store conn.new)
        (CommitsShowing select_events (Int after ∷ Int (pos most) ∷ []) (state S.Store conn.old)) }
{
    let rows = conn.query_all(
        "SELECT number, at, user, what, buffer, detail FROM event WHERE number > ?1 ORDER BY number LIMIT ?2",
        params![after, most],
    )?;
    all_events(alloc, rows.as_slice())
}
