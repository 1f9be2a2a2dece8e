//! Changes of the table of buffers, with the events that tell of them.

ghost use Rattle.std.specs.Prelude.{◌≡◌, true, false, [], ◌∷◌, map, Ok, Err, OnOk, OnErr, IsTrue};
ghost use Rattle.sqlite.specs.State.{HasCleanDisk, Survives, KeepsCommit, ExecutesInside};
ghost use Rattle.sqlite.specs.Held.{state};
ghost use Rattle.mgs_tables.specs.Both.{Left, IsUndone, HasOtherCount};
ghost use Rattle.mgs_tables.specs.Changes.{RanChanges, RunChanges, FindsNoneAmong, statement_of};
ghost use Rattle.mgs_tables.specs.Rows.{event_values, rights_values};
ghost use Rattle.mgs_tables.specs.Texts.{insert_buffer, update_buffer, delete_buffer};
ghost use Rattle.sqlite.specs.declared.types.Value.TheVariants.{Text};

use crate::both::change_one;
use crate::event_table::put_all;
use crate::rows::{EventRow, Fault, RightsRow, RowChange};
use sqlite::{Alter, Connection, Error, ErrorCode, Transaction, params};

// Adds a buffer within a transaction.
fn insert_row<S: Alter>(tx: &mut Transaction<'_, S>, row: &RightsRow<'_>) -> Result<(), Fault>
    ensures same_reference { tx.new.conn.ghost_name ≡ tx.old.conn.ghost_name }
    ensures runs { HasCleanDisk (state S.Store tx.new.conn.now) → IsTrue (state S.Store tx.old.conn.now).in_transaction
        → OnOk result (ExecutesInside 0 insert_buffer (rights_values row.now) (state S.Store tx.old.conn.now) (state S.Store tx.new.conn.now) (Ok 1)) }
    ensures missing { HasCleanDisk (state S.Store tx.new.conn.now) → IsTrue (state S.Store tx.old.conn.now).in_transaction → result ≡ Err Fault.NoBuffer
        → HasOtherCount insert_buffer (rights_values row.now) (state S.Store tx.old.conn.now) (state S.Store tx.new.conn.now) }
    ensures kept { HasCleanDisk (state S.Store tx.new.conn.now) → IsTrue (state S.Store tx.old.conn.now).in_transaction
        → KeepsCommit (state S.Store tx.old.conn.now) (state S.Store tx.new.conn.now) }
    ensures survives { Survives (state S.Store tx.old.conn.now) (state S.Store tx.new.conn.now) (λ _. ⊥) }
{
    change_one(
        tx,
        "INSERT INTO buffer (name, owner, owning_group, entries) VALUES (?1, ?2, ?3, ?4)",
        params![row.name, row.owner, row.owning_group, row.entries],
    )
}

// Gives the buffer of the name these rights within a transaction.
fn update_row<S: Alter>(tx: &mut Transaction<'_, S>, row: &RightsRow<'_>) -> Result<(), Fault>
    ensures same_reference { tx.new.conn.ghost_name ≡ tx.old.conn.ghost_name }
    ensures runs { HasCleanDisk (state S.Store tx.new.conn.now) → IsTrue (state S.Store tx.old.conn.now).in_transaction
        → OnOk result (ExecutesInside 0 update_buffer (rights_values row.now) (state S.Store tx.old.conn.now) (state S.Store tx.new.conn.now) (Ok 1)) }
    ensures missing { HasCleanDisk (state S.Store tx.new.conn.now) → IsTrue (state S.Store tx.old.conn.now).in_transaction → result ≡ Err Fault.NoBuffer
        → HasOtherCount update_buffer (rights_values row.now) (state S.Store tx.old.conn.now) (state S.Store tx.new.conn.now) }
    ensures kept { HasCleanDisk (state S.Store tx.new.conn.now) → IsTrue (state S.Store tx.old.conn.now).in_transaction
        → KeepsCommit (state S.Store tx.old.conn.now) (state S.Store tx.new.conn.now) }
    ensures survives { Survives (state S.Store tx.old.conn.now) (state S.Store tx.new.conn.now) (λ _. ⊥) }
{
    change_one(
        tx,
        "UPDATE buffer SET owner = ?2, owning_group = ?3, entries = ?4 WHERE name = ?1",
        params![row.name, row.owner, row.owning_group, row.entries],
    )
}

// Removes the buffer of the name within a transaction.
fn delete_row<S: Alter>(tx: &mut Transaction<'_, S>, name: &str) -> Result<(), Fault>
    ensures same_reference { tx.new.conn.ghost_name ≡ tx.old.conn.ghost_name }
    ensures runs { HasCleanDisk (state S.Store tx.new.conn.now) → IsTrue (state S.Store tx.old.conn.now).in_transaction
        → OnOk result (ExecutesInside 0 delete_buffer (Text name.now ∷ []) (state S.Store tx.old.conn.now) (state S.Store tx.new.conn.now) (Ok 1)) }
    ensures missing { HasCleanDisk (state S.Store tx.new.conn.now) → IsTrue (state S.Store tx.old.conn.now).in_transaction → result ≡ Err Fault.NoBuffer
        → HasOtherCount delete_buffer (Text name.now ∷ []) (state S.Store tx.old.conn.now) (state S.Store tx.new.conn.now) }
    ensures kept { HasCleanDisk (state S.Store tx.new.conn.now) → IsTrue (state S.Store tx.old.conn.now).in_transaction
        → KeepsCommit (state S.Store tx.old.conn.now) (state S.Store tx.new.conn.now) }
    ensures survives { Survives (state S.Store tx.old.conn.now) (state S.Store tx.new.conn.now) (λ _. ⊥) }
{
    change_one(tx, "DELETE FROM buffer WHERE name = ?1", params![name])
}

// Makes one change within a transaction, which alone commits it.
fn change_row<S: Alter>(tx: &mut Transaction<'_, S>, change: &RowChange<'_>) -> Result<(), Fault>
    ensures same_reference { tx.new.conn.ghost_name ≡ tx.old.conn.ghost_name }
    ensures runs { HasCleanDisk (state S.Store tx.new.conn.now) → IsTrue (state S.Store tx.old.conn.now).in_transaction
        → OnOk result (ExecutesInside 0 (statement_of change.now).sql (statement_of change.now).values (state S.Store tx.old.conn.now) (state S.Store tx.new.conn.now) (Ok 1)) }
    ensures missing { HasCleanDisk (state S.Store tx.new.conn.now) → IsTrue (state S.Store tx.old.conn.now).in_transaction → result ≡ Err Fault.NoBuffer
        → HasOtherCount (statement_of change.now).sql (statement_of change.now).values (state S.Store tx.old.conn.now) (state S.Store tx.new.conn.now) }
    ensures kept { HasCleanDisk (state S.Store tx.new.conn.now) → IsTrue (state S.Store tx.old.conn.now).in_transaction
        → KeepsCommit (state S.Store tx.old.conn.now) (state S.Store tx.new.conn.now) }
    ensures survives { Survives (state S.Store tx.old.conn.now) (state S.Store tx.new.conn.now) (λ _. ⊥) }
{
    match change {
        RowChange::Add(row) => insert_row(tx, row),
        RowChange::Set(row) => update_row(tx, row),
        RowChange::Drop(name) => delete_row(tx, name),
    }
}

// Makes each of the changes within a transaction, in their order.
fn change_all<S: Alter>(tx: &mut Transaction<'_, S>, changes: &[RowChange<'_>]) -> Result<(), Fault>
    ensures same_reference { tx.new.conn.ghost_name ≡ tx.old.conn.ghost_name }
    ensures all { HasCleanDisk (state S.Store tx.new.conn.now) → IsTrue (state S.Store tx.old.conn.now).in_transaction
        → OnOk result (RunChanges S.Store (map statement_of changes.now) tx.old.conn.now tx.new.conn.now) }
    ensures missing { HasCleanDisk (state S.Store tx.new.conn.now) → IsTrue (state S.Store tx.old.conn.now).in_transaction → result ≡ Err Fault.NoBuffer
        → FindsNoneAmong S.Store (map statement_of changes.now) tx.old.conn.now }
    ensures inside { HasCleanDisk (state S.Store tx.new.conn.now) → IsTrue (state S.Store tx.old.conn.now).in_transaction
        → OnOk result (IsTrue (state S.Store tx.new.conn.now).in_transaction) }
    ensures kept { HasCleanDisk (state S.Store tx.new.conn.now) → IsTrue (state S.Store tx.old.conn.now).in_transaction
        → KeepsCommit (state S.Store tx.old.conn.now) (state S.Store tx.new.conn.now) }
    ensures survives { Survives (state S.Store tx.old.conn.now) (state S.Store tx.new.conn.now) (λ _. ⊥) }
{
    for change in changes {
        change_row(tx, change)?;
    }
    Ok(())
}

/// Makes the changes in their order, and then adds the events in theirs, all of that or nothing, in one transaction.
///
/// # Errors
///
/// `NoBuffer` if a change is of a buffer that is not there, and what SQLite refuses or fails by. Nothing is changed then.
pub fn put_changes<S: Alter>(
    conn: &mut Connection<S>,
    changes: &[RowChange<'_>],
    events: &[EventRow<'_>],
) -> Result<(), Fault>
    ensures all { HasCleanDisk (state S.Store conn.new)
        → OnOk result (RanChanges S.Store (map statement_of changes.now) (map event_values events.now) conn.old (state S.Store conn.new).committed) }
    ensures neither { HasCleanDisk (state S.Store conn.new) → IsTrue (state S.Store conn.new).is_open
        → OnErr result (IsUndone (state S.Store conn.old) (state S.Store conn.new)) }
    ensures missing { HasCleanDisk (state S.Store conn.new) → result ≡ Err Fault.NoBuffer
        → FindsNoneAmong S.Store (map statement_of changes.now) (record conn.old { in_transaction = true }) }
    ensures mode { (state S.Store conn.old).in_transaction ≡ false → (state S.Store conn.new).in_transaction ≡ false }
    ensures crash { Survives (state S.Store conn.old) (state S.Store conn.new)
        (Left (RanChanges S.Store (map statement_of changes.now) (map event_values events.now) conn.old)) }
{
    if !conn.is_autocommit() {
        return Err(Fault::Sqlite(Error::SqliteFailure(ErrorCode::TransactionState)));
    }
    let mut tx = conn.transaction();
    change_all(&mut tx, changes)?;
    put_all(&mut tx, events)?;
    tx.commit()?;
    Ok(())
}
