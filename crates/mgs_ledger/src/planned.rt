// What changes of rights make of the tables, before it is written.
ghost use Rattle.std.specs.Prelude.{◌≡◌, ◌++◌, [], ◌∷◌, map, option_copied, remove, slice_get, IfOk, OnOk, None, string_bytes};
ghost use Rattle.mgs_journal.specs.Changes.{row_changed, row_set, text_changed, rows_changed, texts_changed};
ghost use Rattle.mgs_tables.specs.Changes.{statement_of};
ghost use Rattle.mgs_ledger.specs.Keeping.{add_events, add_statements, change_events, change_statements, event_row, events_of, group_events, is_spelled_alike, kill_events, list_events, owner_events, part_events, planned_statement, remove_statements, row_remove_events, row_remove_statements, row_set_events, row_set_statements, set_events, set_statements, statements_of, text_values, word_values};
ghost use Rattle.mgs_ledger.specs.Spelling.{arrow, listed, text_or_empty, told_rights, values_of};

use crate::batch::Words;
use crate::ledger_fault::LedgerFault;
use crate::list_change::{are_alike, arrow_text, list_change};
use crate::rights_spelling::{entry_lines, listed_text, name_text, text_or_empty};
use crate::snapshot::SnapshotValue;
use crate::value::{RightsValue, lent, value_of};
use mgs_buffers::Rights;
use mgs_journal::{Change, is_same_name};
use mgs_model::{Name, Owners};
use mgs_tables::{RightsRow, RowChange};
use std::alloc::{AllocError, Global};

/// The texts of a row of the table of buffers.
#[derive(Drop)]
pub(crate) struct RowText {
    name: Name,
    owners: Owners,
    entries: String,
}

/// A change of a row that is to be written.
#[derive(Drop)]
pub(crate) enum PlannedRow {
    /// Adds a row.
    Add(RowText),
    /// Sets the row of the name.
    Set(RowText),
    /// Removes the row of this name.
    Drop(Name),
}

fn row_of(text: &RowText) -> RightsRow<'_>
    ensures name { result.name.now ≡ text.now.name }
    ensures owner { result.owner.now ≡ text.now.owners.owner }
    ensures group { result.owning_group.now ≡ text_or_empty text.now.owners.group }
    ensures entries { result.entries.now ≡ string_bytes text.now.entries }
{
    RightsRow {
        name: name_text(&text.name),
        owner: name_text(&text.owners.owner),
        owning_group: text_or_empty(&text.owners.group),
        entries: text.entries.as_str(),
    }
}

fn lent_row(planned: &PlannedRow) -> RowChange<'_>
    ensures { statement_of result ≡ planned_statement planned.now }
{
    match planned {
        PlannedRow::Add(text) => RowChange::Add(row_of(text)),
        PlannedRow::Set(text) => RowChange::Set(row_of(text)),
        PlannedRow::Drop(name) => RowChange::Drop(name_text(name)),
    }
}

/// The changes, lent.
pub(crate) fn lent_rows(
    alloc: Global,
    planned: &[PlannedRow],
) -> Result<Vec<RowChange<'_>>, LedgerFault>
    ensures { IfOk result (λ rows. map statement_of rows.items ≡ map planned_statement planned.now) }
{
    let mut rows = Vec::with_capacity(alloc, planned.len())?;
    for row in planned {
        rows.push(lent_row(row))?;
    }
    Ok(rows)
}

/// The texts of the row of these rights.
pub(crate) fn row_text(alloc: Global, rights: &Rights<'_>) -> Result<RowText, AllocError>
    ensures { IfOk result (λ text. text_values text ≡ values_of rights.now) }
{
    Ok(RowText {
        name: *rights.name,
        owners: *rights.owners,
        entries: entry_lines(alloc, rights.list)?,
    })
}

/// Adds an event about a buffer.
pub(crate) fn push_event(
    events: &mut Vec<Words>,
    at: i64,
    user: &Option<Name>,
    what: &'static str,
    buffer: &Name,
    detail: String,
) -> Result<(), LedgerFault>
    ensures { OnOk result (map word_values events.new.items
        ≡ map word_values events.old.items ++ event_row at user.now what.now buffer.now (string_bytes detail) ∷ []) }
{
    events.push(Words {
        at,
        user: *user,
        what,
        buffer: Some(*buffer),
        detail,
    })?;
    Ok(())
}

/// The rights in one line, without the name.
pub(crate) fn rights_text(alloc: Global, rights: &Rights<'_>) -> Result<String, AllocError>
    ensures { IfOk result (λ text. string_bytes text ≡ told_rights rights.now) }
{
    let list = listed_text(alloc, rights.list.as_slice())?;
    let mut text = String::from_str(alloc, name_text(&rights.owners.owner))?;
    text.push_str(":")?;
    text.push_str(text_or_empty(&rights.owners.group))?;
    text.push_str(" ")?;
    text.push_str(list.as_str())?;
    Ok(text)
}

// Adds an event that a part of a buffer's rights is another, if it is.
fn push_part(
    alloc: Global,
    events: &mut Vec<Words>,
    at: i64,
    user: &Option<Name>,
    what: &'static str,
    buffer: &Name,
    old: &str,
    new: &str,
) -> Result<(), LedgerFault>
    ensures { OnOk result (map word_values events.new.items
        ≡ map word_values events.old.items ++ part_events at user.now what.now buffer.now old.now new.now) }
{
    if old == new {
        return Ok(());
    }
    let detail = arrow_text(alloc, old, new)?;
    push_event(events, at, user, what, buffer, detail)
}

// Adds an event that a buffer's list is another, if it is.
fn push_list(
    alloc: Global,
    events: &mut Vec<Words>,
    at: i64,
    user: &Option<Name>,
    old: &Rights<'_>,
    new: &Rights<'_>,
) -> Result<(), LedgerFault>
    ensures { OnOk result (map word_values events.new.items ≡ map word_values events.old.items ++ list_events at user.now old.now new.now) }
{
    let was = old.list.as_slice();
    let is = new.list.as_slice();
    if are_alike(was, is) {
        return Ok(());
    }
    let detail = list_change(alloc, was, is)?;
    push_event(events, at, user, "list", new.name, detail)
}

// Adds an event that a buffer's owner is another, if it is.
fn push_owner(
    alloc: Global,
    events: &mut Vec<Words>,
    at: i64,
    user: &Option<Name>,
    old: &Rights<'_>,
    new: &Rights<'_>,
) -> Result<(), LedgerFault>
    ensures { OnOk result (map word_values events.new.items ≡ map word_values events.old.items ++ owner_events at user.now old.now new.now) }
{
    push_part(
        alloc,
        events,
        at,
        user,
        "owner",
        new.name,
        name_text(&old.owners.owner),
        name_text(&new.owners.owner),
    )
}

// Adds an event that a buffer's owning group is another, if it is.
fn push_group(
    alloc: Global,
    events: &mut Vec<Words>,
    at: i64,
    user: &Option<Name>,
    old: &Rights<'_>,
    new: &Rights<'_>,
) -> Result<(), LedgerFault>
    ensures { OnOk result (map word_values events.new.items ≡ map word_values events.old.items ++ group_events at user.now old.now new.now) }
{
    push_part(
        alloc,
        events,
        at,
        user,
        "group",
        new.name,
        text_or_empty(&old.owners.group),
        text_or_empty(&new.owners.group),
    )
}

// Adds an event for each part of a buffer's rights that is another.
#[tactic(auto, using(crate::proofs::Lists::three_then))]
fn push_parts(
    alloc: Global,
    events: &mut Vec<Words>,
    at: i64,
    user: &Option<Name>,
    old: &Rights<'_>,
    new: &Rights<'_>,
) -> Result<(), LedgerFault>
    ensures { OnOk result (map word_values events.new.items ≡ map word_values events.old.items ++ set_events at user.now old.now new.now) }
{
    push_list(alloc, events, at, user, old, new)?;
    push_owner(alloc, events, at, user, old, new)?;
    push_group(alloc, events, at, user, old, new)
}

// Whether the three parts of rights are spelled alike.
fn is_spelled_alike(old: &Rights<'_>, new: &Rights<'_>) -> bool
    ensures { result ≡ is_spelled_alike old.now new.now }
{
    are_alike(old.list.as_slice(), new.list.as_slice())
        && (name_text(&old.owners.owner) == name_text(&new.owners.owner)
            && text_or_empty(&old.owners.group) == text_or_empty(&new.owners.group))
}

// Plans the row of other rights, unless they are the same.
fn plan_row(
    alloc: Global,
    planned: &mut Vec<PlannedRow>,
    old: &Rights<'_>,
    new: &Rights<'_>,
) -> Result<(), LedgerFault>
    ensures { OnOk result (map planned_statement planned.new.items ≡ map planned_statement planned.old.items ++ set_statements old.now new.now) }
{
    if is_spelled_alike(old, new) {
        return Ok(());
    }
    planned.push(PlannedRow::Set(row_text(alloc, new)?))?;
    Ok(())
}

fn plan_add(
    alloc: Global,
    planned: &mut Vec<PlannedRow>,
    events: &mut Vec<Words>,
    at: i64,
    user: &Option<Name>,
    rights: &Rights<'_>,
) -> Result<(), LedgerFault>
    ensures rows { OnOk result (map planned_statement planned.new.items ≡ map planned_statement planned.old.items ++ add_statements rights.now) }
    ensures events { OnOk result (map word_values events.new.items ≡ map word_values events.old.items ++ add_events at user.now rights.now) }
{
    let detail = rights_text(alloc, rights)?;
    push_event(events, at, user, "create", rights.name, detail)?;
    planned.push(PlannedRow::Add(row_text(alloc, rights)?))?;
    Ok(())
}

fn plan_set(
    alloc: Global,
    planned: &mut Vec<PlannedRow>,
    events: &mut Vec<Words>,
    at: i64,
    user: &Option<Name>,
    old: &Rights<'_>,
    new: &Rights<'_>,
) -> Result<(), LedgerFault>
    ensures rows { OnOk result (map planned_statement planned.new.items ≡ map planned_statement planned.old.items ++ set_statements old.now new.now) }
    ensures events { OnOk result (map word_values events.new.items ≡ map word_values events.old.items ++ set_events at user.now old.now new.now) }
    ensures same { OnOk result (old.now.name ≡ new.now.name) }
{
    if !is_same_name(old.name, new.name) {
        return Err(LedgerFault::Other);
    }
    push_parts(alloc, events, at, user, old, new)?;
    plan_row(alloc, planned, old, new)
}

/// Adds an event that a buffer was killed.
pub(crate) fn push_kill(
    alloc: Global,
    events: &mut Vec<Words>,
    at: i64,
    user: &Option<Name>,
    name: &Name,
) -> Result<(), LedgerFault>
    ensures { OnOk result (map word_values events.new.items ≡ map word_values events.old.items ++ kill_events at user.now name.now) }
{
    push_event(events, at, user, "kill", name, String::new(alloc))
}

fn plan_remove(
    alloc: Global,
    planned: &mut Vec<PlannedRow>,
    events: &mut Vec<Words>,
    at: i64,
    user: &Option<Name>,
    rights: &Rights<'_>,
) -> Result<(), LedgerFault>
    ensures rows { OnOk result (map planned_statement planned.new.items ≡ map planned_statement planned.old.items ++ remove_statements rights.now) }
    ensures events { OnOk result (map word_values events.new.items ≡ map word_values events.old.items ++ kill_events at user.now rights.now.name) }
{
    push_kill(alloc, events, at, user, rights.name)?;
    planned.push(PlannedRow::Drop(*rights.name))?;
    Ok(())
}

// Plans other rights of a row, if there is one.
fn plan_set_of(
    alloc: Global,
    planned: &mut Vec<PlannedRow>,
    events: &mut Vec<Words>,
    at: i64,
    user: &Option<Name>,
    row: Option<&RightsValue>,
    rights: &Rights<'_>,
) -> Result<(), LedgerFault>
    ensures rows { OnOk result (map planned_statement planned.new.items ≡ map planned_statement planned.old.items ++ row_set_statements (option_copied row.entry) rights.now) }
    ensures events { OnOk result (map word_values events.new.items ≡ map word_values events.old.items ++ row_set_events at user.now (option_copied row.entry) rights.now) }
{
    match row {
        Some(row) => plan_set(alloc, planned, events, at, user, &lent(row), rights),
        None => Err(LedgerFault::Other),
    }
}

// Plans that a row is removed, if there is one.
fn plan_remove_of(
    alloc: Global,
    planned: &mut Vec<PlannedRow>,
    events: &mut Vec<Words>,
    at: i64,
    user: &Option<Name>,
    row: Option<&RightsValue>,
) -> Result<(), LedgerFault>
    ensures rows { OnOk result (map planned_statement planned.new.items ≡ map planned_statement planned.old.items ++ row_remove_statements (option_copied row.entry)) }
    ensures events { OnOk result (map word_values events.new.items ≡ map word_values events.old.items ++ row_remove_events at user.now (option_copied row.entry)) }
{
    match row {
        Some(row) => plan_remove(alloc, planned, events, at, user, &lent(row)),
        None => Err(LedgerFault::Other),
    }
}

// The row at an index, if there is one.
fn row_at(rows: &[RightsValue], i: usize) -> Option<&RightsValue>
    ensures { option_copied result ≡ slice_get rows.now i }
{
    rows.get(i)
}

// Plans one change of these rows.
fn plan_change(
    alloc: Global,
    planned: &mut Vec<PlannedRow>,
    events: &mut Vec<Words>,
    at: i64,
    user: &Option<Name>,
    rows: &[RightsValue],
    change: &Change<'_>,
) -> Result<(), LedgerFault>
    ensures rows { OnOk result (map planned_statement planned.new.items ≡ map planned_statement planned.old.items ++ change_statements change.now rows.now) }
    ensures events { OnOk result (map word_values events.new.items ≡ map word_values events.old.items ++ change_events at user.now change.now rows.now) }
{
    match change {
        Change::Add(rights, _) => plan_add(alloc, planned, events, at, user, rights),
        Change::Set(i, rights) => plan_set_of(
            alloc,
            planned,
            events,
            at,
            user,
            row_at(rows, *i),
            rights,
        ),
        Change::Remove(i) => plan_remove_of(alloc, planned, events, at, user, row_at(rows, *i)),
    }
}

fn add_value(
    rows: &mut Vec<RightsValue>,
    texts: &mut Vec<Option<SnapshotValue>>,
    value: RightsValue,
) -> Result<(), LedgerFault>
    ensures rows { OnOk result (rows.new.items ≡ rows.old.items ++ value ∷ []) }
    ensures texts { OnOk result (texts.new.items ≡ texts.old.items ++ None ∷ []) }
{
    if rows.len() >= rows.capacity() || texts.len() >= texts.capacity() {
        return Err(LedgerFault::Full);
    }
    rows.push_reserved(value);
    texts.push_reserved(None);
    Ok(())
}

fn set_value(rows: &mut Vec<RightsValue>, i: usize, rights: &Rights<'_>) -> Result<(), LedgerFault>
    ensures { OnOk result (rows.new.items ≡ row_set i rights.now rows.old.items) }
{
    if i >= rows.len() {
        return Err(LedgerFault::Other);
    }
    let birth = rows[i].birth;
    rows[i] = value_of(rights, birth);
    Ok(())
}

fn remove_value(
    rows: &mut Vec<RightsValue>,
    texts: &mut Vec<Option<SnapshotValue>>,
    i: usize,
) -> Result<(), LedgerFault>
    ensures rows { OnOk result (rows.new.items ≡ remove rows.old.items i) }
    ensures texts { OnOk result (texts.new.items ≡ remove texts.old.items i) }
{
    if i >= rows.len() || i >= texts.len() {
        return Err(LedgerFault::Other);
    }
    let _ = rows.remove(i);
    let _ = texts.remove(i);
    Ok(())
}

// Makes one change of these rows and texts.
fn make_change(
    rows: &mut Vec<RightsValue>,
    texts: &mut Vec<Option<SnapshotValue>>,
    change: &Change<'_>,
) -> Result<(), LedgerFault>
    ensures rows { OnOk result (rows.new.items ≡ row_changed change.now rows.old.items) }
    ensures texts { OnOk result (texts.new.items ≡ text_changed change.now texts.old.items) }
{
    match change {
        Change::Add(rights, birth) => add_value(rows, texts, value_of(rights, *birth)),
        Change::Set(i, rights) => set_value(rows, *i, rights),
        Change::Remove(i) => remove_value(rows, texts, *i),
    }
}

/// Plans changes, one after another, and makes them of these rows and texts.
pub(crate) fn plan_all(
    alloc: Global,
    planned: &mut Vec<PlannedRow>,
    events: &mut Vec<Words>,
    at: i64,
    user: &Option<Name>,
    rows: &mut Vec<RightsValue>,
    texts: &mut Vec<Option<SnapshotValue>>,
    changes: &[Change<'_>],
) -> Result<(), LedgerFault>
    ensures planned { OnOk result (map planned_statement planned.new.items
        ≡ map planned_statement planned.old.items ++ statements_of changes.now rows.old.items) }
    ensures events { OnOk result (map word_values events.new.items
        ≡ map word_values events.old.items ++ events_of at user.now changes.now rows.old.items) }
    ensures rows { OnOk result (rows.new.items ≡ rows_changed changes.now rows.old.items) }
    ensures texts { OnOk result (texts.new.items ≡ texts_changed changes.now texts.old.items) }
{
    for change in changes {
        plan_change(alloc, planned, events, at, user, rows.as_slice(), change)?;
        make_change(rows, texts, change)?;
    }
    Ok(())
}
