//! The table of what happened.

ghost use Rattle.std.specs.Prelude.{◌≡◌, [], map, IsTrue, IfOk, OnOk};
ghost use Rattle.sqlite.specs.State.{HasCleanDisk, Survives, KeepsCommit, ExecutesInside, CommitsShowing};
ghost use Rattle.sqlite.specs.Held.{state};
ghost use Rattle.mgs_tables.specs.Texts.{insert_event, select_newest};
ghost use Rattle.mgs_tables.specs.Rows.{event_values};
ghost use Rattle.mgs_tables.specs.Events.{RunAll};
ghost use Rattle.mgs_tables.specs.Reading.{ShowsNumber};

use crate::rows::EventRow;
use sqlite::{Alter, Connection, Error, Transaction, params};

// Adds an event within a transaction, which alone commits it.
fn put_event_within<S: Alter>(
    tx: &mut Transaction<'_, S>,
    event: &EventRow<'_>,
) -> Result<usize, Error>
    ensures same_reference { tx.new.conn.ghost_name ≡ tx.old.conn.ghost_name }
    ensures runs { HasCleanDisk (state S.Store tx.new.conn.now) → IsTrue (state S.Store tx.old.conn.now).in_transaction
        → ExecutesInside 0 insert_event (event_values event.now) (state S.Store tx.old.conn.now) (state S.Store tx.new.conn.now) result }
    ensures survives { Survives (state S.Store tx.old.conn.now) (state S.Store tx.new.conn.now) (λ _. ⊥) }
{
    tx.execute(
        "INSERT INTO event (at, user, what, buffer, detail) VALUES (?1, ?2, ?3, ?4, ?5)",
        params![event.at, event.user, event.what, event.buffer, event.detail],
    )
}

/// Adds each of the events within a transaction, in their order.
pub(crate) fn put_all<S: Alter>(
    tx: &mut Transaction<'_, S>,
    events: &[EventRow<'_>],
) -> Result<(), Error>
    ensures same_reference { tx.new.conn.ghost_name ≡ tx.old.conn.ghost_name }
    ensures all { HasCleanDisk (state S.Store tx.new.conn.now) → IsTrue (state S.Store tx.old.conn.now).in_transaction
        → OnOk result (RunAll S.Store (map event_values events.now) tx.old.conn.now tx.new.conn.now) }
    ensures inside { HasCleanDisk (state S.Store tx.new.conn.now) → IsTrue (state S.Store tx.old.conn.now).in_transaction
        → OnOk result (IsTrue (state S.Store tx.new.conn.now).in_transaction) }
    ensures kept { HasCleanDisk (state S.Store tx.new.conn.now) → IsTrue (state S.Store tx.old.conn.now).in_transaction
        → KeepsCommit (state S.Store tx.old.conn.now) (state S.Store tx.new.conn.now) }
    ensures survives { Survives (state S.Store tx.old.conn.now) (state S.Store tx.new.conn.now) (λ _. ⊥) }
{
    for event in events {
        put_event_within(tx, event)?;
    }
    Ok(())
}

/// The newest event's number, 0 where there is none. It fails where SQLite refuses or fails.
pub fn newest<S: Alter>(conn: &mut Connection<S>) -> Result<i64, Error>
    ensures shown { HasCleanDisk (state S.Store conn.new)
        → IfOk result (ShowsNumber select_newest [] (state S.Store conn.old) (state S.Store conn.new)) }
    ensures survives { Survives (state S.Store conn.old) (state S.Store conn.new) (CommitsShowing select_newest [] (state S.Store conn.old)) }
{
    conn.query_row("SELECT coalesce(max(number), 0) FROM event", &[])?
        .get(0)
}
