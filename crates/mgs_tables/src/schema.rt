//! How the tables are made, and what tells that a file has them.

ghost use Rattle.std.specs.Prelude.{◌≡◌, false, ◌∷◌, [], IsTrue, IfOk, OnOk, OnErr};
ghost use Rattle.sqlite.specs.State.{HasCleanDisk, Survives, CommitsShowing};
ghost use Rattle.sqlite.specs.Held.{state};
ghost use Rattle.mgs_tables.specs.Texts.{select_version, count_objects, count_tables, table_texts};
ghost use Rattle.mgs_tables.specs.Both.{Left, IsUndone};
ghost use Rattle.mgs_tables.specs.Making.{HasRun, HasMade, HasGrownTo2, HasGrownTo3};
ghost use Rattle.mgs_tables.specs.Reading.{ShowsNumber};

use sqlite::{Alter, Connection, Error, ErrorCode, params};

// Runs all of the statements or none, in one transaction.
fn run_all<S: Alter>(conn: &mut Connection<S>, statements: &str) -> Result<(), Error>
    ensures made { HasCleanDisk (state S.Store conn.new)
        → OnOk result (HasRun S.Store statements.now conn.old (state S.Store conn.new).committed) }
    ensures none { HasCleanDisk (state S.Store conn.new) → IsTrue (state S.Store conn.new).is_open
        → OnErr result (IsUndone (state S.Store conn.old) (state S.Store conn.new)) }
    ensures mode { (state S.Store conn.old).in_transaction ≡ false → (state S.Store conn.new).in_transaction ≡ false }
    ensures crash { Survives (state S.Store conn.old) (state S.Store conn.new) (Left (HasRun S.Store statements.now conn.old)) }
{
    if !conn.is_autocommit() {
        return Err(Error::SqliteFailure(ErrorCode::TransactionState));
    }
    let mut tx = conn.transaction();
    tx.execute_batch(statements)?;
    tx.commit()?;
    Ok(())
}

/// Makes the tables in a new file, and says there that they are of version 3, all in one transaction: no crash leaves a part of them.
///
/// # Errors
///
/// `TransactionState` where a transaction is open, and what SQLite refuses or fails by, as a table of one of the names that is there.
/// Nothing is changed then.
pub fn make<S: Alter>(conn: &mut Connection<S>) -> Result<(), Error>
    ensures made { HasCleanDisk (state S.Store conn.new) → OnOk result (HasMade S.Store conn.old (state S.Store conn.new).committed) }
    ensures none { HasCleanDisk (state S.Store conn.new) → IsTrue (state S.Store conn.new).is_open
        → OnErr result (IsUndone (state S.Store conn.old) (state S.Store conn.new)) }
    ensures mode { (state S.Store conn.old).in_transaction ≡ false → (state S.Store conn.new).in_transaction ≡ false }
    ensures crash { Survives (state S.Store conn.old) (state S.Store conn.new) (Left (HasMade S.Store conn.old)) }
{
    run_all(
        conn,
        "CREATE TABLE format (version INTEGER NOT NULL) STRICT; \
         CREATE TABLE buffer (id INTEGER PRIMARY KEY, name TEXT NOT NULL UNIQUE, owner TEXT NOT NULL, owning_group TEXT NOT NULL, entries TEXT NOT NULL) STRICT; \
         CREATE TABLE event (number INTEGER PRIMARY KEY, at INTEGER NOT NULL, user TEXT NOT NULL, what TEXT NOT NULL, buffer TEXT NOT NULL, detail TEXT NOT NULL) STRICT; \
         CREATE TABLE text (buffer INTEGER PRIMARY KEY REFERENCES buffer (id) ON DELETE CASCADE, modified INTEGER NOT NULL, file INTEGER NOT NULL, body TEXT NOT NULL) STRICT; \
         INSERT INTO format (version) VALUES (3)",
    )
}

/// Gives the tables of version 1, which had no texts, a table for them, and says that they are of version 2, in one transaction: a crash
/// leaves them of either version, whole.
///
/// # Errors
///
/// As `make`.
pub fn grow_to_2<S: Alter>(conn: &mut Connection<S>) -> Result<(), Error>
    ensures grown { HasCleanDisk (state S.Store conn.new) → OnOk result (HasGrownTo2 S.Store conn.old (state S.Store conn.new).committed) }
    ensures none { HasCleanDisk (state S.Store conn.new) → IsTrue (state S.Store conn.new).is_open
        → OnErr result (IsUndone (state S.Store conn.old) (state S.Store conn.new)) }
    ensures mode { (state S.Store conn.old).in_transaction ≡ false → (state S.Store conn.new).in_transaction ≡ false }
    ensures crash { Survives (state S.Store conn.old) (state S.Store conn.new) (Left (HasGrownTo2 S.Store conn.old)) }
{
    run_all(
        conn,
        "CREATE TABLE text (buffer INTEGER PRIMARY KEY REFERENCES buffer (id) ON DELETE CASCADE, modified INTEGER NOT NULL, file INTEGER NOT NULL, body TEXT NOT NULL) STRICT; \
         UPDATE format SET version = 2",
    )
}

/// Makes the tables of version 2 ones of version 3, in one transaction. Nobody is no user's name any more, and an event for each buffer
/// tells what its rights are.
///
/// # Errors
///
/// As `make`.
pub fn grow_to_3<S: Alter>(conn: &mut Connection<S>) -> Result<(), Error>
    ensures grown { HasCleanDisk (state S.Store conn.new) → OnOk result (HasGrownTo3 S.Store conn.old (state S.Store conn.new).committed) }
    ensures none { HasCleanDisk (state S.Store conn.new) → IsTrue (state S.Store conn.new).is_open
        → OnErr result (IsUndone (state S.Store conn.old) (state S.Store conn.new)) }
    ensures mode { (state S.Store conn.old).in_transaction ≡ false → (state S.Store conn.new).in_transaction ≡ false }
    ensures crash { Survives (state S.Store conn.old) (state S.Store conn.new) (Left (HasGrownTo3 S.Store conn.old)) }
{
    run_all(
        conn,
        "UPDATE event SET user = '' WHERE user = '-'; \
         INSERT INTO event (at, user, what, buffer, detail) SELECT coalesce((SELECT at FROM event ORDER BY number DESC LIMIT 1), 0), '', 'is', name, owner || ':' || owning_group || ' ' || CASE entries WHEN '' THEN '-' ELSE replace(replace(entries || '.', '\n.', ''), '\n', '; ') END FROM buffer ORDER BY id; \
         UPDATE format SET version = 3",
    )
}

/// The version of the tables. It fails where the file has none, and where SQLite fails.
pub fn version<S: Alter>(conn: &mut Connection<S>) -> Result<i64, Error>
    ensures shown { HasCleanDisk (state S.Store conn.new)
        → IfOk result (ShowsNumber select_version [] (state S.Store conn.old) (state S.Store conn.new)) }
    ensures survives { Survives (state S.Store conn.old) (state S.Store conn.new) (CommitsShowing select_version [] (state S.Store conn.old)) }
{
    conn.query_row("SELECT version FROM format", &[])?.get(0)
}

/// How many tables, indexes, views and triggers the file has.
pub(crate) fn object_count<S: Alter>(conn: &mut Connection<S>) -> Result<i64, Error>
    ensures shown { HasCleanDisk (state S.Store conn.new)
        → IfOk result (ShowsNumber count_objects [] (state S.Store conn.old) (state S.Store conn.new)) }
    ensures survives { Survives (state S.Store conn.old) (state S.Store conn.new) (CommitsShowing count_objects [] (state S.Store conn.old)) }
{
    conn.query_row("SELECT count(*) FROM sqlite_schema", &[])?
        .get(0)
}

/// How many of the four tables the file has as `make` makes them.
pub(crate) fn table_count<S: Alter>(conn: &mut Connection<S>) -> Result<i64, Error>
    ensures shown { HasCleanDisk (state S.Store conn.new)
        → IfOk result (ShowsNumber count_tables table_texts (state S.Store conn.old) (state S.Store conn.new)) }
    ensures survives { Survives (state S.Store conn.old) (state S.Store conn.new) (CommitsShowing count_tables table_texts (state S.Store conn.old)) }
{
    conn.query_row(
        "SELECT count(*) FROM sqlite_schema WHERE sql = ?1 OR sql = ?2 OR sql = ?3 OR sql = ?4",
        params![
            "CREATE TABLE format (version INTEGER NOT NULL) STRICT",
            "CREATE TABLE buffer (id INTEGER PRIMARY KEY, name TEXT NOT NULL UNIQUE, owner TEXT NOT NULL, owning_group TEXT NOT NULL, entries TEXT NOT NULL) STRICT",
            "CREATE TABLE event (number INTEGER PRIMARY KEY, at INTEGER NOT NULL, user TEXT NOT NULL, what TEXT NOT NULL, buffer TEXT NOT NULL, detail TEXT NOT NULL) STRICT",
            "CREATE TABLE text (buffer INTEGER PRIMARY KEY REFERENCES buffer (id) ON DELETE CASCADE, modified INTEGER NOT NULL, file INTEGER NOT NULL, body TEXT NOT NULL) STRICT",
        ],
    )?
    .get(0)
}
