// The names that users took.
ghost use Rattle.std.specs.Prelude.{◌≡◌, OnOk, filter, not, true, if◌then◌else◌};
ghost use Rattle.mgs_model.specs.Access.{is_among};
ghost use Rattle.mgs_model.specs.Names.{is_name, same_name};
ghost use Rattle.mgs_ledger.specs.Taken.{event_noted, noted, page_noted};

use crate::ledger_fault::LedgerFault;
use mgs_model::Name;
use mgs_tables::Event;

/// Whether a name is one of these.
pub(crate) fn has_name(names: &[Name], name: &Name) -> bool
    ensures { result ≡ is_among name.now names.now }
{
    names.iter().any(|other| *name == *other)
}

/// Takes a name out, if it is there.
pub(crate) fn free(names: &mut Vec<Name>, name: &Name)
    ensures { names.new.items ≡ filter (λ other. not (same_name name.now other)) names.old.items }
{
    names.retain(|other| *name != *other);
}

// A name is taken by a user, or free again.
fn note(names: &mut Vec<Name>, name: Name, is_by_user: bool) -> Result<(), LedgerFault>
    ensures { OnOk result (names.new.items ≡ noted name is_by_user names.old.items) }
{
    free(names, &name);
    if is_by_user {
        names.push(name)?;
    }
    Ok(())
}

// A name, if it is one, is taken by a user.
fn note_taken(names: &mut Vec<Name>, name: &str) -> Result<(), LedgerFault>
    ensures { OnOk result (names.new.items ≡ (if is_name name.now then noted name.now true names.old.items else names.old.items)) }
{
    match Name::read(name) {
        Some(name) => note(names, name, true),
        None => Ok(()),
    }
}

// What an event does to the names that are taken: a user takes one by making or killing a buffer, and nobody frees it so.
fn note_event(names: &mut Vec<Name>, event: &Event) -> Result<(), LedgerFault>
    ensures { OnOk result (names.new.items ≡ event_noted names.old.items event.now) }
{
    if event.what.as_str() == "taken" {
        return note_taken(names, event.buffer.as_str());
    }
    if event.what.as_str() != "create" && event.what.as_str() != "kill" {
        return Ok(());
    }
    match Name::read(event.buffer.as_str()) {
        Some(name) => note(names, name, !event.user.is_empty()),
        None => Ok(()),
    }
}

/// Notes all events of a page.
pub(crate) fn note_page(names: &mut Vec<Name>, events: &[Event]) -> Result<(), LedgerFault>
    ensures { OnOk result (names.new.items ≡ page_noted names.old.items events.now) }
{
    for event in events {
        note_event(names, event)?;
    }
    Ok(())
}
