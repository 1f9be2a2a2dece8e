// What one event does to the rows.
ghost use Rattle.std.specs.Prelude.{◌≡◌, ◌<◌, ◌||◌, ◌==◌, length, position, slice_get, slice_set, is_some, unwrap_or, vec_len, Some, IfOk, IfSome, OnOk, string_bytes};
ghost use Rattle.mgs_rewind.specs.RowChanges.{is_known, is_known_in, is_row_of, rights_in, row_added, row_changed_at, row_place, row_stated, rows_changed, rows_created, rows_killed, rows_stated, with_part};
ghost use Rattle.mgs_rewind.specs.Account.{rows_told};

use crate::part::{Part, new_part, set_part};
use crate::told_rights::{ToldRights, read_rights};
use std::alloc::{AllocError, Global};

// The index of the first row of a name.
fn row_place(rows: &[ToldRights], name: &[u8]) -> Option<usize>
    ensures value { result ≡ row_place name.now rows.now }
    ensures within { IfSome result (λ i. i < length rows.now) }
{
    rows.iter().position(|row| row.is_of(name))
}

// Whether there is a row of a name.
fn has_row(rows: &[ToldRights], name: &[u8]) -> bool
    ensures { result ≡ is_some (row_place name.now rows.now) }
{
    row_place(rows, name).is_some()
}

// Adds a row, unless there is one of its name.
fn add_row(rows: &mut Vec<ToldRights>, row: ToldRights) -> Result<bool, AllocError>
    ensures rows { OnOk result (rows.new.items ≡ unwrap_or (row_added row rows.old.items) rows.old.items) }
    ensures follows { IfOk result (λ is. is ≡ is_some (row_added row rows.old.items)) }
{
    if has_row(rows.as_slice(), row.name()) {
        return Ok(false);
    }
    rows.push(row)?;
    Ok(true)
}

// Whether rights are told, or the detail is empty.
fn can_create(row: &ToldRights, detail: &[u8]) -> bool
    ensures { result ≡ (length detail.now == 0 || is_known row.now) }
{
    detail.is_empty() || row.is_known()
}

fn create(
    alloc: Global,
    rows: &mut Vec<ToldRights>,
    name: &[u8],
    detail: &[u8],
) -> Result<bool, AllocError>
    ensures rows { OnOk result (rows.new.items ≡ unwrap_or (rows_created name.now detail.now rows.old.items) rows.old.items) }
    ensures follows { IfOk result (λ is. is ≡ is_some (rows_created name.now detail.now rows.old.items)) }
{
    let row = read_rights(alloc, name, detail)?;
    if !can_create(&row, detail) {
        return Ok(false);
    }
    add_row(rows, row)
}

// Replaces the row at an index.
fn set_row(rows: &mut Vec<ToldRights>, i: usize, row: ToldRights)
    requires { i < vec_len rows.old }
    ensures { rows.new.items ≡ slice_set rows.old.items i row }
{
    rows[i] = row;
}

// Whether the row at an index, if there is one, is known.
fn is_known_at(rows: &[ToldRights], i: usize) -> bool
    ensures { result ≡ is_known_in (slice_get rows.now i) }
{
    match rows.get(i) {
        Some(row) => row.is_known(),
        None => true,
    }
}

// Puts a row in the place of one that is not known, or at the end if there is none of its name.
fn state_row(rows: &mut Vec<ToldRights>, row: ToldRights) -> Result<bool, AllocError>
    ensures rows { OnOk result (rows.new.items ≡ unwrap_or (row_stated row rows.old.items) rows.old.items) }
    ensures follows { IfOk result (λ is. is ≡ is_some (row_stated row rows.old.items)) }
{
    match row_place(rows.as_slice(), row.name()) {
        None => {
            rows.push(row)?;
            Ok(true)
        }
        Some(i) => {
            if is_known_at(rows.as_slice(), i) {
                return Ok(false);
            }
            set_row(rows, i, row);
            Ok(true)
        }
    }
}

fn state(
    alloc: Global,
    rows: &mut Vec<ToldRights>,
    name: &[u8],
    detail: &[u8],
) -> Result<bool, AllocError>
    ensures rows { OnOk result (rows.new.items ≡ unwrap_or (rows_stated name.now detail.now rows.old.items) rows.old.items) }
    ensures follows { IfOk result (λ is. is ≡ is_some (rows_stated name.now detail.now rows.old.items)) }
{
    let row = read_rights(alloc, name, detail)?;
    if !row.is_known() {
        return Ok(false);
    }
    state_row(rows, row)
}

fn kill(rows: &mut Vec<ToldRights>, name: &[u8])
    ensures { rows.new.items ≡ rows_killed name.now rows.old.items }
{
    if let Some(i) = row_place(rows.as_slice(), name) {
        let _ = rows.remove(i);
    }
}

// Replaces a part of the row at an index.
fn put_part(rows: &mut Vec<ToldRights>, i: usize, part: Part, text: Vec<u8>)
    requires { i < vec_len rows.old }
    ensures { (row : _) → slice_get rows.old.items i ≡ Some row → rows.new.items ≡ slice_set rows.old.items i (with_part part text.items row) }
{
    set_part(&mut rows[i], part, text);
}

// Changes a part of the row at an index, unless the row is not known.
fn change_row(
    alloc: Global,
    rows: &mut Vec<ToldRights>,
    i: usize,
    part: Part,
    detail: &[u8],
) -> Result<bool, AllocError>
    requires { i < vec_len rows.old }
    ensures rows { OnOk result (rows.new.items ≡ unwrap_or (row_changed_at part detail.now (Some i) rows.old.items) rows.old.items) }
    ensures follows { IfOk result (λ is. is ≡ is_some (row_changed_at part detail.now (Some i) rows.old.items)) }
{
    if !rows[i].is_known() {
        return Ok(true);
    }
    match new_part(alloc, part, detail, &rows[i])? {
        None => Ok(false),
        Some(text) => {
            put_part(rows, i, part, text);
            Ok(true)
        }
    }
}

fn change(
    alloc: Global,
    rows: &mut Vec<ToldRights>,
    part: Part,
    name: &[u8],
    detail: &[u8],
) -> Result<bool, AllocError>
    ensures rows { OnOk result (rows.new.items ≡ unwrap_or (rows_changed part name.now detail.now rows.old.items) rows.old.items) }
    ensures follows { IfOk result (λ is. is ≡ is_some (rows_changed part name.now detail.now rows.old.items)) }
{
    match row_place(rows.as_slice(), name) {
        None => Ok(false),
        Some(i) => change_row(alloc, rows, i, part, detail),
    }
}

/// Does what an event tells to the rows. `false`: it does not follow from the events before it, and the rows are as they were.
pub(crate) fn note_event(
    alloc: Global,
    rows: &mut Vec<ToldRights>,
    what: &str,
    name: &[u8],
    detail: &[u8],
) -> Result<bool, AllocError>
    ensures rows { OnOk result (rows.new.items ≡ unwrap_or (rows_told what.now name.now detail.now rows.old.items) rows.old.items) }
    ensures follows { IfOk result (λ is. is ≡ is_some (rows_told what.now name.now detail.now rows.old.items)) }
{
    if what == "create" {
        create(alloc, rows, name, detail)
    } else if what == "is" {
        state(alloc, rows, name, detail)
    } else if what == "kill" {
        kill(rows, name);
        Ok(true)
    } else if what == "list" {
        change(alloc, rows, Part::List, name, detail)
    } else if what == "owner" {
        change(alloc, rows, Part::Owner, name, detail)
    } else if what == "group" {
        change(alloc, rows, Part::Group, name, detail)
    } else {
        Ok(true)
    }
}
