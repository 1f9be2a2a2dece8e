// The texts that the tables have.
ghost use Rattle.std.specs.Prelude.{◌≡◌, ◌∷◌, Some, IfOk, IfSome, OnErr, OnOk, map, length};
ghost use Rattle.sqlite.specs.State.{HasCleanDisk};
ghost use Rattle.sqlite.specs.Held.{state};
ghost use Rattle.sqlite.specs.declared.types.Value.TheVariants.{Text as TextValue};
ghost use Rattle.mgs_tables.specs.Both.{RanWith};
ghost use Rattle.mgs_tables.specs.Texts.{replace_text};
ghost use Rattle.mgs_tables.specs.Rows.{text_read};
ghost use Rattle.mgs_ledger.specs.Keeping.{word_values};
ghost use Rattle.mgs_ledger.specs.Refused.{KeepsTables};
ghost use Rattle.mgs_ledger.specs.Snapshots.{AreTextsRead, flag, read_values, text_values};

use crate::batch::{Words, rows_of};
use crate::ledger_fault::LedgerFault;
use crate::rights_spelling::name_text;
use crate::snapshot::SnapshotValue;
use mgs_journal::Snapshot;
use mgs_model::{BUFFER_LIMIT, Name};
use mgs_tables::{Text, TextRow, put_text, read_texts};
use sqlite::{Alter, Connection};
use std::alloc::Global;

fn flag(is: bool) -> i64
    ensures { result ≡ flag is }
{
    if is { 1 } else { 0 }
}

// Whether a number is a flag, and which.
fn read_flag(number: i64) -> Option<bool>
    ensures { IfSome result (λ is. flag is ≡ number) }
{
    match number {
        0 => Some(false),
        1 => Some(true),
        _ => None,
    }
}

fn row_of<'a>(name: &'a Name, text: &Snapshot<'a>) -> TextRow<'a>
    ensures name { result.name.now ≡ name.now }
    ensures modified { result.modified ≡ flag text.now.modified }
    ensures file { result.file ≡ text.now.file }
    ensures body { result.body.now ≡ text.now.body }
{
    TextRow {
        name: name_text(name),
        modified: flag(text.modified),
        file: text.file,
        body: text.body,
    }
}

/// Keeps the text of a buffer, and adds the events, in one transaction.
pub(crate) fn keep_text<S: Alter>(
    conn: &mut Connection<S>,
    alloc: Global,
    name: &Name,
    text: &Snapshot<'_>,
    all: &[Words],
) -> Result<(), LedgerFault>
    ensures done { HasCleanDisk (state S.Store conn.new)
        → OnOk result (RanWith S.Store replace_text (TextValue name.now ∷ text_values text.now) (map word_values all.now) conn.old (state S.Store conn.new).committed) }
    ensures failed { OnErr result (KeepsTables S.Store conn.old conn.new) }
{
    let events = rows_of(alloc, all)?;
    put_text(conn, &row_of(name, text), events.as_slice())?;
    Ok(())
}

// What is kept of a text, if it is one.
fn read_value(text: Text) -> Option<SnapshotValue>
    ensures { IfSome result (λ value. text_values value ≡ text_read (Some text)) }
{
    let Text {
        modified,
        file,
        body,
    } = text;
    match read_flag(modified) {
        Some(modified) => Some(SnapshotValue {
            body,
            modified,
            file,
        }),
        None => None,
    }
}

fn read_text(text: Option<Text>) -> Result<Option<SnapshotValue>, LedgerFault>
    ensures { IfOk result (λ value. read_values value ≡ text_read text) }
{
    match text {
        None => Ok(None),
        Some(text) => match read_value(text) {
            Some(value) => Ok(Some(value)),
            None => Err(LedgerFault::Text),
        },
    }
}

fn read_all(
    alloc: Global,
    texts: Vec<Option<Text>>,
) -> Result<Vec<Option<SnapshotValue>>, LedgerFault>
    ensures { IfOk result (λ values. map read_values values.items ≡ map text_read texts.items) }
{
    let mut values = Vec::with_capacity(alloc, BUFFER_LIMIT)?;
    for text in texts {
        values.push(read_text(text)?)?;
    }
    Ok(values)
}

/// What is kept of the text of each of so many buffers, in their order. `Text` where it does not read, or there are more or fewer.
pub(crate) fn read_snapshots<S: Alter>(
    conn: &mut Connection<S>,
    alloc: Global,
    count: usize,
) -> Result<Vec<Option<SnapshotValue>>, LedgerFault>
    ensures read { HasCleanDisk (state S.Store conn.new)
        → IfOk result (λ values. AreTextsRead (state S.Store conn.old) (state S.Store conn.new) values.items) }
    ensures count { IfOk result (λ values. length values.items ≡ count) }
{
    let texts = read_texts(conn, alloc)?;
    let values = read_all(alloc, texts)?;
    if values.len() != count {
        return Err(LedgerFault::Text);
    }
    Ok(values)
}
