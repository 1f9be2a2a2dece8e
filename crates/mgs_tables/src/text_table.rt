//! The table of texts.

ghost use Rattle.std.specs.Prelude.{◌≡◌, [], map, false, Err, IfOk, OnOk, OnErr, IsTrue};
ghost use Rattle.sqlite.specs.declared.types.Value.TheVariants.{Null};
ghost use Rattle.sqlite.specs.Order.{column};
ghost use Rattle.sqlite.specs.State.{HasCleanDisk, Survives, CommitsShowing};
ghost use Rattle.sqlite.specs.Held.{state};
ghost use Rattle.mgs_tables.specs.Both.{RanWith, Left, IsUndone, FindsNone};
ghost use Rattle.mgs_tables.specs.Reading.{ShowsTexts};
ghost use Rattle.mgs_tables.specs.Texts.{replace_text, select_texts};
ghost use Rattle.mgs_tables.specs.Rows.{event_values, text_values, text_read, text_columns};

use crate::both::write_with;
use crate::rows::{EventRow, Fault, Text, TextRow};
use sqlite::types::Type;
use sqlite::{Alter, Connection, Error, Row, params};
use std::alloc::Global;

/// Keeps the text of the buffer of the name, in the place of the one that is kept of it, and adds the events in their order: all of that or
/// nothing. A text of 1,000,000,000 bytes or more is refused.
pub fn put_text<S: Alter>(
    conn: &mut Connection<S>,
    text: &TextRow<'_>,
    events: &[EventRow<'_>],
) -> Result<(), Fault>
    ensures both { HasCleanDisk (state S.Store conn.new)
        → OnOk result (RanWith S.Store replace_text (text_values text.now) (map event_values events.now) conn.old (state S.Store conn.new).committed) }
    ensures neither { HasCleanDisk (state S.Store conn.new) → IsTrue (state S.Store conn.new).is_open
        → OnErr result (IsUndone (state S.Store conn.old) (state S.Store conn.new)) }
    ensures missing { HasCleanDisk (state S.Store conn.new) → result ≡ Err Fault.NoBuffer
        → FindsNone S.Store replace_text (text_values text.now) conn.old }
    ensures mode { (state S.Store conn.old).in_transaction ≡ false → (state S.Store conn.new).in_transaction ≡ false }
    ensures crash { Survives (state S.Store conn.old) (state S.Store conn.new)
        (Left (RanWith S.Store replace_text (text_values text.now) (map event_values events.now) conn.old)) }
{
    write_with(
        conn,
        "INSERT OR REPLACE INTO text (buffer, modified, file, body) SELECT id, ?2, ?3, ?4 FROM buffer WHERE name = ?1",
        params![text.name, text.modified, text.file, text.body],
        events,
    )
}

// No text, of which the other columns have nothing either.
fn no_text(row: &Row) -> Result<Option<Text>, Error>
    ensures { column row.now 0 ≡ Null → IfOk result (λ text. text_read text ≡ text_columns row.now) }
{
    let file: Option<i64> = row.get(1)?;
    let body: Option<String> = row.get(2)?;
    match file {
        Some(_) => Err(Error::InvalidColumnType(1, Type::Integer)),
        None => match body {
            Some(_) => Err(Error::InvalidColumnType(2, Type::Text)),
            None => Ok(None),
        },
    }
}

// The text of a buffer, or none where it has none yet.
fn text_of(row: &Row) -> Result<Option<Text>, Error>
    ensures { IfOk result (λ text. text_read text ≡ text_columns row.now) }
{
    let modified: Option<i64> = row.get(0)?;
    match modified {
        None => no_text(row),
        Some(modified) => Ok(Some(Text {
            modified,
            file: row.get(1)?,
            body: row.get(2)?,
        })),
    }
}

fn all_texts(alloc: Global, rows: &[Row]) -> Result<Vec<Option<Text>>, Error>
    ensures { IfOk result (λ all. map text_read all.items ≡ map text_columns rows.now) }
{
    let mut all = Vec::with_capacity(alloc, rows.len())?;
    for row in rows {
        all.push(text_of(row)?)?;
    }
    Ok(all)
}

/// The text of each buffer, in the order in which the buffers were added, or none where it has none yet. It fails where SQLite refuses or
/// fails, where a value is of another type, and for want of memory.
pub fn read_texts<S: Alter>(
    conn: &mut Connection<S>,
    alloc: Global,
) -> Result<Vec<Option<Text>>, Error>
    ensures shown { HasCleanDisk (state S.Store conn.new)
        → IfOk result (λ all. ShowsTexts (state S.Store conn.old) (state S.Store conn.new) all.items) }
    ensures survives { Survives (state S.Store conn.old) (state S.Store conn.new) (CommitsShowing select_texts [] (state S.Store conn.old)) }
{
    let rows = conn.query_all(
        "SELECT modified, file, body FROM buffer LEFT JOIN text ON text.buffer = buffer.id ORDER BY buffer.id",
        &[],
    )?;
    all_texts(alloc, rows.as_slice())
}
