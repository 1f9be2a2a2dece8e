//! The first event of a file that goes on where another ended.

ghost use Rattle.std.specs.Prelude.{◌≡◌, false, ◌∷◌, map, Err, OnOk, OnErr, IsTrue};
ghost use Rattle.sqlite.specs.declared.types.Value.TheVariants.{Int};
ghost use Rattle.sqlite.specs.State.{HasCleanDisk, Survives};
ghost use Rattle.sqlite.specs.Held.{state};
ghost use Rattle.mgs_tables.specs.Both.{RanWith, Left, IsUndone, FindsNone};
ghost use Rattle.mgs_tables.specs.Rows.{event_values};
ghost use Rattle.mgs_tables.specs.Texts.{insert_numbered};

use crate::both::write_with;
use crate::rows::{EventRow, Fault};
use sqlite::{Alter, Connection, params};

/// Adds an event by its number, and then the other events in their order, which are numbered after the greatest number: all of that or
/// nothing, in one transaction.
///
/// # Errors
///
/// What SQLite refuses or fails by, such as a number that another event has. Nothing is changed then.
pub fn put_numbered<S: Alter>(
    conn: &mut Connection<S>,
    number: i64,
    first: &EventRow<'_>,
    others: &[EventRow<'_>],
) -> Result<(), Fault>
    ensures both { HasCleanDisk (state S.Store conn.new)
        → OnOk result (RanWith S.Store insert_numbered (Int number ∷ event_values first.now) (map event_values others.now) conn.old (state S.Store conn.new).committed) }
    ensures neither { HasCleanDisk (state S.Store conn.new) → IsTrue (state S.Store conn.new).is_open
        → OnErr result (IsUndone (state S.Store conn.old) (state S.Store conn.new)) }
    ensures missing { HasCleanDisk (state S.Store conn.new) → result ≡ Err Fault.NoBuffer
        → FindsNone S.Store insert_numbered (Int number ∷ event_values first.now) conn.old }
    ensures mode { (state S.Store conn.old).in_transaction ≡ false → (state S.Store conn.new).in_transaction ≡ false }
    ensures crash { Survives (state S.Store conn.old) (state S.Store conn.new)
        (Left (RanWith S.Store insert_numbered (Int number ∷ event_values first.now) (map event_values others.now) conn.old)) }
{
    write_with(
        conn,
        "INSERT INTO event (number, at, user, what, buffer, detail) VALUES (?1, ?2, ?3, ?4, ?5, ?6)",
        params![
            number,
            first.at,
            first.user,
            first.what,
            first.buffer,
            first.detail
        ],
        others,
    )
}
