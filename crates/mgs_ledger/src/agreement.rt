// Whether the table of buffers has the rights that the events tell.
ghost use Rattle.std.specs.Prelude.{◌≡◌, true, map, IfErr, IfOk, OnOk};
ghost use Rattle.mgs_journal.specs.Rows.{rules_in_rows};
ghost use Rattle.mgs_ledger.specs.Agreement.{Agrees, HasAgreed, told_of};
ghost use Rattle.mgs_ledger.specs.declared.ledger_fault.LedgerFault.TheVariants.{Short};

use crate::history::read_history;
use crate::ledger_fault::LedgerFault;
use crate::rights_spelling::{listed_text, text_or_empty};
use crate::stored_rights::read_values;
use crate::value::RightsValue;
use mgs_rewind::{Account, ToldRights};
use sqlite::{Alter, Connection};
use std::alloc::{AllocError, Global};

// Whether the rights of a row are those that its events tell.
fn is_told(alloc: Global, told: &ToldRights, row: &RightsValue) -> Result<bool, AllocError>
    ensures same { IfOk result (λ is. is ≡ true → told.now ≡ told_of row.now.rules) }
    ensures all { IfOk result (λ is. told.now ≡ told_of row.now.rules → is ≡ true) }
{
    let list = listed_text(alloc, row.list.as_slice())?;
    Ok(
        told.name() == row.name.as_bytes()
            && told.owner() == row.owners.owner.as_bytes()
            && told.group() == text_or_empty(&row.owners.group).as_bytes()
            && told.list() == list.as_str().as_bytes(),
    )
}

// The fault of a buffer of which the table and the events say otherwise.
fn differs(alloc: Global, name: &[u8]) -> LedgerFault {
    let text = match str::from_utf8(name) {
        Ok(text) => text,
        Err(_) => "",
    };
    match String::from_str(alloc, text) {
        Ok(name) => LedgerFault::Differs(name),
        Err(_) => LedgerFault::Short,
    }
}

// Tests that the rows have the rights that were told, in the same order.
fn test_rows(alloc: Global, told: &[ToldRights], rows: &[RightsValue]) -> Result<(), LedgerFault>
    ensures same { OnOk result (told.now ≡ map told_of (rules_in_rows rows.now)) }
    ensures all { told.now ≡ map told_of (rules_in_rows rows.now) → IfErr result (λ fault. fault ≡ Short) }
{
    let mut i = 0;
    while i < rows.len() {
        let row = &rows[i];
        if i >= told.len() {
            return Err(differs(alloc, row.name.as_bytes()));
        }
        if !is_told(alloc, &told[i], row)? {
            return Err(differs(alloc, row.name.as_bytes()));
        }
        i += 1;
    }
    if i < told.len() {
        let row = &told[i];
        return Err(differs(alloc, row.name()));
    }
    Ok(())
}

/// Tests that the rows have the rights that the events tell.
///
/// # Errors
///
/// `Event` if an event does not follow from those before it, `Differs` if the rights of a buffer are not those that the events tell, and
/// `Short` for want of memory.
pub(crate) fn test_account(
    alloc: Global,
    account: &Account,
    rows: &[RightsValue],
) -> Result<(), LedgerFault>
    ensures same { OnOk result (Agrees account.now rows.now) }
    ensures all { Agrees account.now rows.now → IfErr result (λ fault. fault ≡ Short) }
{
    if let Some(number) = account.wrong() {
        return Err(LedgerFault::Event(number));
    }
    test_rows(alloc, account.rows(), rows)
}

/// Tests that the table of buffers has the rights that the events tell.
///
/// # Errors
///
/// `Row` if what is kept of a buffer does not read, `Event` and `Differs` as `test_account`, `Tables` if the tables fail, and `Short` for
/// want of memory.
pub fn test_tables<S: Alter>(conn: &mut Connection<S>, alloc: Global) -> Result<(), LedgerFault>
    ensures { OnOk result (HasAgreed S.Store conn.old conn.new) }
{
    let rows = read_values(conn, alloc)?;
    let history = read_history(conn, alloc)?;
    test_account(alloc, &history.account, rows.as_slice())?;
    Ok(())
}
