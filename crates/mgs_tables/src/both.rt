//! A change of one row and the events that are told with it, in one transaction.

ghost use Rattle.std.specs.Prelude.{◌≡◌, false, map, Ok, Err, OnOk, OnErr, IsTrue};
ghost use Rattle.sqlite.specs.State.{HasCleanDisk, Survives, KeepsCommit, ExecutesInside};
ghost use Rattle.sqlite.specs.Values.{bound};
ghost use Rattle.sqlite.specs.Held.{state};
ghost use Rattle.mgs_tables.specs.Both.{RanWith, Left, IsUndone, HasOtherCount, FindsNone};
ghost use Rattle.mgs_tables.specs.Rows.{event_values};

use crate::event_table::put_all;
use crate::rows::{EventRow, Fault};
use sqlite::{Alter, Connection, Error, ErrorCode, Transaction};
use sqlite_value::value::ValueRef;

/// Makes the change within a transaction, which alone commits it, and refuses one that is not of one row.
pub(crate) fn change_one<S: Alter>(
    tx: &mut Transaction<'_, S>,
    change: &str,
    of_change: &[ValueRef<'_>],
) -> Result<(), Fault>
    ensures same_reference { tx.new.conn.ghost_name ≡ tx.old.conn.ghost_name }
    ensures runs { HasCleanDisk (state S.Store tx.new.conn.now) → IsTrue (state S.Store tx.old.conn.now).in_transaction
        → OnOk result (ExecutesInside 0 change.now (bound of_change.now) (state S.Store tx.old.conn.now) (state S.Store tx.new.conn.now) (Ok 1)) }
    ensures missing { HasCleanDisk (state S.Store tx.new.conn.now) → IsTrue (state S.Store tx.old.conn.now).in_transaction → result ≡ Err Fault.NoBuffer
        → HasOtherCount change.now (bound of_change.now) (state S.Store tx.old.conn.now) (state S.Store tx.new.conn.now) }
    ensures kept { HasCleanDisk (state S.Store tx.new.conn.now) → IsTrue (state S.Store tx.old.conn.now).in_transaction
        → KeepsCommit (state S.Store tx.old.conn.now) (state S.Store tx.new.conn.now) }
    ensures survives { Survives (state S.Store tx.old.conn.now) (state S.Store tx.new.conn.now) (λ _. ⊥) }
{
    let changed = tx.execute(change, of_change)?;
    if changed != 1 {
        return Err(Fault::NoBuffer);
    }
    Ok(())
}

/// Makes the change of one row and adds the events in their order, all of that or nothing, in one transaction.
pub(crate) fn write_with<S: Alter>(
    conn: &mut Connection<S>,
    change: &str,
    of_change: &[ValueRef<'_>],
    events: &[EventRow<'_>],
) -> Result<(), Fault>
    ensures both { HasCleanDisk (state S.Store conn.new)
        → OnOk result (RanWith S.Store change.now (bound of_change.now) (map event_values events.now) conn.old (state S.Store conn.new).committed) }
    ensures neither { HasCleanDisk (state S.Store conn.new) → IsTrue (state S.Store conn.new).is_open
        → OnErr result (IsUndone (state S.Store conn.old) (state S.Store conn.new)) }
    ensures missing { HasCleanDisk (state S.Store conn.new) → result ≡ Err Fault.NoBuffer
        → FindsNone S.Store change.now (bound of_change.now) conn.old }
    ensures mode { (state S.Store conn.old).in_transaction ≡ false → (state S.Store conn.new).in_transaction ≡ false }
    ensures crash { Survives (state S.Store conn.old) (state S.Store conn.new)
        (Left (RanWith S.Store change.now (bound of_change.now) (map event_values events.now) conn.old)) }
{
    if !conn.is_autocommit() {
        return Err(Fault::Sqlite(Error::SqliteFailure(ErrorCode::TransactionState)));
    }
    let mut tx = conn.transaction();
    change_one(&mut tx, change, of_change)?;
    put_all(&mut tx, events)?;
    tx.commit()?;
    Ok(())
}
