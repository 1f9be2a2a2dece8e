// What a new file begins with.
ghost use Rattle.std.specs.Prelude.{◌≡◌, ◌++◌, [], ◌∷◌, ℕ, ℤ, pos, ◌+ℤ◌, List, Some, map, IfOk, OnOk, string_bytes, decimal};
ghost use Rattle.sqlite.specs.declared.types.Value.TheVariants.{Int};
ghost use Rattle.sqlite.specs.State.{HasCleanDisk};
ghost use Rattle.sqlite.specs.Held.{state};
ghost use Rattle.mgs_tables.specs.Both.{RanWith};
ghost use Rattle.mgs_tables.specs.Changes.{RanChanges};
ghost use Rattle.mgs_tables.specs.Texts.{insert_numbered};
ghost use Rattle.mgs_ledger.specs.Keeping.{planned_statement, word_values};
ghost use Rattle.mgs_ledger.specs.NewFile.{AreTextsPut, IsFilled, added_row, file_event, first_events, is_event, taken_event};

use crate::batch::{Words, put_all, rows_of};
use crate::ledger_fault::LedgerFault;
use crate::planned::{PlannedRow, push_event, rights_text, row_text};
use crate::snapshot::{SnapshotValue, snapshot_in};
use crate::stored_texts::keep_text;
use crate::value::{RightsValue, lent};
use mgs_model::Name;
use mgs_tables::put_numbered;
use sqlite::{Alter, Connection};
use std::alloc::{AllocError, Global};

fn plan_rows(alloc: Global, rows: &[RightsValue]) -> Result<Vec<PlannedRow>, LedgerFault>
    ensures { IfOk result (λ planned. map planned_statement planned.items ≡ map added_row rows.now) }
{
    let mut planned = Vec::with_capacity(alloc, rows.len())?;
    for row in rows {
        planned.push(PlannedRow::Add(row_text(alloc, &lent(row))?))?;
    }
    Ok(planned)
}

fn file_text(alloc: Global, file: u64) -> Result<String, AllocError>
    ensures { IfOk result (λ text. string_bytes text ≡ decimal file) }
{
    format!(in alloc; "{file}")
}

fn file_words(alloc: Global, at: i64, file: u64) -> Result<Words, AllocError>
    ensures { IfOk result (λ words. word_values words ≡ file_event at file) }
{
    Ok(Words {
        at,
        user: None,
        what: "file",
        buffer: None,
        detail: file_text(alloc, file)?,
    })
}

// Adds an event that tells the rights of each buffer.
fn push_rights(
    alloc: Global,
    events: &mut Vec<Words>,
    at: i64,
    rows: &[RightsValue],
) -> Result<(), LedgerFault>
    ensures { OnOk result (map word_values events.new.items ≡ map word_values events.old.items ++ map (is_event at) rows.now) }
{
    for row in rows {
        let detail = rights_text(alloc, &lent(row))?;
        push_event(events, at, &None, "is", &row.name, detail)?;
    }
    Ok(())
}

// Adds an event for each name that is taken.
fn push_taken(
    alloc: Global,
    events: &mut Vec<Words>,
    at: i64,
    taken: &[Name],
) -> Result<(), LedgerFault>
    ensures { OnOk result (map word_values events.new.items ≡ map word_values events.old.items ++ map (taken_event at) taken.now) }
{
    for name in taken {
        push_event(events, at, &None, "taken", name, String::new(alloc))?;
    }
    Ok(())
}

// The events after the first.
fn other_words(
    alloc: Global,
    at: i64,
    rows: &[RightsValue],
    taken: &[Name],
) -> Result<Vec<Words>, LedgerFault>
    ensures { IfOk result (λ all. map word_values all.items ≡ first_events at rows.now taken.now) }
{
    let mut events = Vec::new(alloc);
    push_rights(alloc, &mut events, at, rows)?;
    push_taken(alloc, &mut events, at, taken)?;
    Ok(events)
}

// Adds the first events, of which the first has this number.
fn put_first<S: Alter>(
    conn: &mut Connection<S>,
    alloc: Global,
    number: i64,
    first: &Words,
    others: &[Words],
) -> Result<(), LedgerFault>
    ensures { HasCleanDisk (state S.Store conn.new)
        → OnOk result (RanWith S.Store insert_numbered (Int number ∷ word_values first.now) (map word_values others.now) conn.old (state S.Store conn.new).committed) }
{
    let rows = rows_of(alloc, others)?;
    put_numbered(conn, number, &first.row(), rows.as_slice())?;
    Ok(())
}

// Puts the text of a buffer.
fn put_one<S: Alter>(
    conn: &mut Connection<S>,
    alloc: Global,
    row: &RightsValue,
    text: &SnapshotValue,
) -> Result<(), LedgerFault>
    ensures { OnOk result (AreTextsPut S.Store (row.now ∷ []) (Some text.now ∷ []) conn.old conn.new) }
{
    keep_text(conn, alloc, &row.name, &snapshot_in(text), &[])
}

// Puts the text of a buffer, if there is one.
fn put_text_of<S: Alter>(
    conn: &mut Connection<S>,
    alloc: Global,
    row: &RightsValue,
    text: &Option<SnapshotValue>,
) -> Result<(), LedgerFault>
    ensures { OnOk result (AreTextsPut S.Store (row.now ∷ []) (text.now ∷ []) conn.old conn.new) }
{
    match text {
        None => Ok(()),
        Some(text) => put_one(conn, alloc, row, text),
    }
}

// Puts the text of each buffer that has one.
fn put_texts<S: Alter>(
    conn: &mut Connection<S>,
    alloc: Global,
    rows: &[RightsValue],
    texts: &[Option<SnapshotValue>],
) -> Result<(), LedgerFault>
    ensures { OnOk result (AreTextsPut S.Store rows.now texts.now conn.old conn.new) }
{
    let mut i = 0;
    while i < rows.len() && i < texts.len() {
        put_text_of(conn, alloc, &rows[i], &texts[i])?;
        i += 1;
    }
    Ok(())
}

fn put_rows<S: Alter>(
    conn: &mut Connection<S>,
    alloc: Global,
    rows: &[RightsValue],
) -> Result<(), LedgerFault>
    ensures { HasCleanDisk (state S.Store conn.new)
        → OnOk result (RanChanges S.Store (map added_row rows.now) [] conn.old (state S.Store conn.new).committed) }
{
    let planned = plan_rows(alloc, rows)?;
    put_all(conn, alloc, planned.as_slice(), &[])
}

/// The events that begin a file.
#[derive(Drop)]
pub(crate) struct FirstWords {
    pub(crate) first: Words,
    pub(crate) others: Vec<Words>,
}

fn first_words(
    alloc: Global,
    at: i64,
    file: u64,
    rows: &[RightsValue],
    taken: &[Name],
) -> Result<FirstWords, LedgerFault>
    ensures first { IfOk result (λ words. word_values words.first ≡ file_event at file) }
    ensures others { IfOk result (λ words. map word_values words.others.items ≡ first_events at rows.now taken.now) }
{
    Ok(FirstWords {
        first: file_words(alloc, at, file)?,
        others: other_words(alloc, at, rows, taken)?,
    })
}

// Fills fresh tables with the rows, these first events from a number on, and the texts.
fn fill<S: Alter>(
    conn: &mut Connection<S>,
    alloc: Global,
    number: i64,
    words: &FirstWords,
    rows: &[RightsValue],
    texts: &[Option<SnapshotValue>],
) -> Result<(), LedgerFault>
    ensures { (at : ℤ) (file : ℕ) (taken : List (List ℕ)) → word_values words.now.first ≡ file_event at file
        → map word_values words.now.others.items ≡ first_events at rows.now taken
        → OnOk result (IsFilled S.Store at number file rows.now texts.now taken conn.old conn.new) }
{
    put_rows(conn, alloc, rows)?;
    put_first(conn, alloc, number, &words.first, words.others.as_slice())?;
    put_texts(conn, alloc, rows, texts)
}

/// Fills the fresh tables of a connection with all that is kept. The first event has the number after the last one of the file before. It
/// returns the connection, and the events.
///
/// # Errors
///
/// `Tables` if the tables refuse or fail, `Full` if no number is left, and `Short` for want of memory.
pub(crate) fn filled_tables<S: Alter + Drop>(
    mut conn: Connection<S>,
    alloc: Global,
    at: i64,
    last: i64,
    file: u64,
    rows: &[RightsValue],
    texts: &[Option<SnapshotValue>],
    taken: &[Name],
) -> Result<(Connection<S>, FirstWords), LedgerFault>
    ensures { IfOk result (λ filled. IsFilled S.Store at (last +ℤ pos 1) file rows.now texts.now taken.now conn filled.0) }
{
    let Some(number) = last.checked_add(1) else {
        return Err(LedgerFault::Full);
    };
    let words = first_words(alloc, at, file, rows, taken)?;
    fill(&mut conn, alloc, number, &words, rows, texts)?;
    Ok((conn, words))
}
