// The rights of the tables, read back.
ghost use Rattle.std.specs.Prelude.{◌≡◌, IfOk, IfSome, map};
ghost use Rattle.sqlite.specs.State.{HasCleanDisk};
ghost use Rattle.sqlite.specs.Held.{state};
ghost use Rattle.mgs_tables.specs.Rows.{rights_read};
ghost use Rattle.mgs_ledger.specs.Spelling.{entry_lines, text_or_empty};
ghost use Rattle.mgs_ledger.specs.Reading.{AreRead, AreUnborn, row_values};

use crate::ledger_fault::LedgerFault;
use crate::rights_spelling::entry_lines;
use crate::value::RightsValue;
use mgs_acl::{List, read_entry};
use mgs_model::{BUFFER_LIMIT, Name, Owners};
use mgs_tables::{Rights, read_rights};
use sqlite::{Alter, Connection};
use std::alloc::{AllocError, Global};

// A list whose entries stand on these lines, if they are entries and not too many.
fn list_of(text: &str) -> Option<List> {
    let mut list = List::new();
    for line in text.lines() {
        let Ok(entry) = read_entry(line) else {
            return None;
        };
        let end = list.len();
        if list.insert(end, entry).is_err() {
            return None;
        }
    }
    Some(list)
}

// The list that is spelled so, to the letter.
fn read_list(alloc: Global, text: &str) -> Result<Option<List>, AllocError>
    ensures { IfOk result (λ list. IfSome list (λ list. entry_lines list ≡ text.now)) }
{
    let Some(list) = list_of(text) else {
        return Ok(None);
    };
    let again = entry_lines(alloc, &list)?;
    if again.as_str() == text {
        Ok(Some(list))
    } else {
        Ok(None)
    }
}

// The user's name that is written so, if it is one.
fn read_user(text: &str) -> Option<Name>
    ensures { IfSome result (λ name. name ≡ text.now) }
{
    match Name::read(text) {
        Some(name) if name.is_user_name() => Some(name),
        _ => None,
    }
}

fn read_group(text: &str) -> Option<Option<Name>>
    ensures { IfSome result (λ group. text_or_empty group ≡ text.now) }
{
    if text.is_empty() {
        return Some(None);
    }
    match read_user(text) {
        Some(group) => Some(Some(group)),
        None => None,
    }
}

fn read_owners(owner: &str, group: &str) -> Option<Owners>
    ensures owner { IfSome result (λ owners. owners.owner ≡ owner.now) }
    ensures group { IfSome result (λ owners. text_or_empty owners.group ≡ group.now) }
{
    match read_user(owner) {
        None => None,
        Some(owner) => match read_group(group) {
            None => None,
            Some(group) => Some(Owners { owner, group }),
        },
    }
}

fn read_value(alloc: Global, row: &Rights) -> Result<Option<RightsValue>, AllocError>
    ensures spelled { IfOk result (λ value. IfSome value (λ value. row_values value ≡ rights_read row.now)) }
    ensures birth { IfOk result (λ value. IfSome value (λ value. value.birth ≡ 0)) }
{
    let Some(name) = Name::read(row.name.as_str()) else {
        return Ok(None);
    };
    let Some(owners) = read_owners(row.owner.as_str(), row.owning_group.as_str()) else {
        return Ok(None);
    };
    let Some(list) = read_list(alloc, row.entries.as_str())? else {
        return Ok(None);
    };
    Ok(Some(RightsValue {
        name,
        owners,
        list,
        birth: 0,
    }))
}

fn read_row(alloc: Global, row: &Rights) -> Result<RightsValue, LedgerFault>
    ensures spelled { IfOk result (λ value. row_values value ≡ rights_read row.now) }
    ensures birth { IfOk result (λ value. value.birth ≡ 0) }
{
    match read_value(alloc, row)? {
        Some(value) => Ok(value),
        None => Err(LedgerFault::Row(row.name.clone()?)),
    }
}

fn read_rows(alloc: Global, rows: &[Rights]) -> Result<Vec<RightsValue>, LedgerFault>
    ensures spelled { IfOk result (λ values. map row_values values.items ≡ map rights_read rows.now) }
    ensures births { IfOk result (λ values. AreUnborn values.items) }
{
    let mut values = Vec::with_capacity(alloc, BUFFER_LIMIT)?;
    for row in rows {
        values.push(read_row(alloc, row)?)?;
    }
    Ok(values)
}

/// The rights in the tables, in the order of creation. `Row` where what is kept of a buffer does not read.
pub(crate) fn read_values<S: Alter>(
    conn: &mut Connection<S>,
    alloc: Global,
) -> Result<Vec<RightsValue>, LedgerFault>
    ensures { HasCleanDisk (state S.Store conn.new)
        → IfOk result (λ values. AreRead (state S.Store conn.old) (state S.Store conn.new) values.items) }
{
    let rows = read_rights(conn, alloc)?;
    read_rows(alloc, rows.as_slice())
}
