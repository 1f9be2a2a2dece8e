// The users and groups of a configuration.
ghost use Rattle.std.specs.Prelude.{◌≡◌, ◌≢◌, [], ◌∷◌, ◌++◌, map, IfOk, IfErr, OnOk, Some, None};
ghost use Rattle.std.specs.Option.{option_map};
ghost use Rattle.toml.specs.View.{view};
ghost use Rattle.mgs_policy.specs.Directories.{with_user, with_group};
ghost use Rattle.mgs_model.specs.Tickets.{ticket_fault, with_ticket};
ghost use Rattle.mgs_policy.specs.Directories.{group_fault};
ghost use Rattle.mgs_config.specs.Rows.{user_row, group_row};
ghost use Rattle.mgs_config.specs.Faults.{first_fault, of_ticket, user_of, names_of, ticket_refused, user_refused};
ghost use Rattle.mgs_config.specs.Faults.{of_directory, group_of, added_refused, group_refused};
ghost use Rattle.mgs_config.specs.declared.config_fault.TableFault.TheVariants.{Short};

use crate::config_fault::TableFault;
use crate::row::{group_row, user_row};
use mgs_model::{TicketFault, Tickets};
use mgs_policy::{Directory, DirectoryFault};
use std::alloc::Global;
use toml::Value;

// Gives a user a ticket.
fn add_ticket(tickets: &mut Tickets, name: &str, ticket: &str) -> Result<(), TableFault>
    ensures ok { OnOk result ((ticket_fault tickets.old name.now ticket.now ≡ None) × (tickets.new ≡ with_ticket tickets.old name.now ticket.now)) }
    ensures err { IfErr result (λ f. f ≢ Short → option_map of_ticket (ticket_fault tickets.old name.now ticket.now) ≡ Some f) }
{
    match tickets.add(name, ticket) {
        Ok(()) => Ok(()),
        Err(TicketFault::Name) => Err(TableFault::Name),
        Err(TicketFault::Twice) => Err(TableFault::Twice),
        Err(TicketFault::Full) => Err(TableFault::Long),
        Err(TicketFault::Short) => Err(TableFault::Short),
    }
}

// Adds the user of a table.
fn add_user(directory: &mut Directory, tickets: &mut Tickets, row: &Value) -> Result<(), TableFault>
    ensures due { OnOk result (ticket_refused tickets.old (user_row (view row.now)) ≡ None) }
    ensures ticket { OnOk result (tickets.new ≡ tickets.old ++ user_of (view row.now) ∷ []) }
    ensures user { OnOk result (directory.new ≡ with_user directory.old (user_of (view row.now)).0) }
    ensures err { IfErr result (λ f. f ≢ Short → ticket_refused tickets.old (user_row (view row.now)) ≡ Some f) }
{
    let Some((name, ticket)) = user_row(row) else {
        return Err(TableFault::Key);
    };
    match add_ticket(tickets, name, ticket) {
        Ok(()) => {}
        Err(fault) => return Err(fault),
    }
    // A name that has no ticket yet, and may have one, is refused for out of memory alone.
    match directory.add_user(name) {
        Ok(()) => Ok(()),
        Err(_) => Err(TableFault::Short),
    }
}

// Adds a group to a directory.
fn add_members(directory: &mut Directory, name: &str, members: &[&str]) -> Result<(), TableFault>
    ensures due { OnOk result (group_fault directory.old name.now (map (λ m. m.now) members.now) ≡ None) }
    ensures group { OnOk result (directory.new ≡ with_group directory.old name.now (map (λ m. m.now) members.now)) }
    ensures err { IfErr result (λ f. f ≢ Short → option_map of_directory (group_fault directory.old name.now (map (λ m. m.now) members.now)) ≡ Some f) }
{
    match directory.add_group(name, members) {
        Ok(()) => Ok(()),
        Err(DirectoryFault::Name) => Err(TableFault::Name),
        Err(DirectoryFault::Twice) => Err(TableFault::Twice),
        Err(DirectoryFault::Unknown) => Err(TableFault::Unknown),
        Err(DirectoryFault::Full) => Err(TableFault::Long),
        Err(DirectoryFault::Short) => Err(TableFault::Short),
    }
}

// Adds the group of a table.
fn add_group(alloc: Global, directory: &mut Directory, row: &Value) -> Result<(), TableFault>
    ensures due { OnOk result (added_refused directory.old (group_row (view row.now)) ≡ None) }
    ensures group { OnOk result (directory.new ≡ record directory.old { groups = directory.old.groups ++ group_of (view row.now) ∷ [] }) }
    ensures err { IfErr result (λ f. f ≢ Short → added_refused directory.old (group_row (view row.now)) ≡ Some f) }
{
    match group_row(alloc, row) {
        Ok(Some((name, members))) => add_members(directory, name, members.as_slice()),
        Ok(None) => Err(TableFault::Key),
        Err(_) => Err(TableFault::Short),
    }
}

/// The users and the tickets of these tables, or the first fault and the number of its table.
pub(crate) fn read_users(
    alloc: Global,
    rows: &[Value],
) -> Result<(Directory, Tickets), (usize, TableFault)>
    ensures due { OnOk result (first_fault user_refused [] (map view rows.now) ≡ None) }
    ensures directory { IfOk result (λ world. world.0 ≡ record { users = names_of (map user_of (map view rows.now)); groups = [] }) }
    ensures tickets { IfOk result (λ world. world.1 ≡ map user_of (map view rows.now)) }
    ensures err { IfErr result (λ f. f.1 ≢ Short → first_fault user_refused [] (map view rows.now) ≡ Some f) }
{
    let mut directory = Directory::new(alloc);
    let mut tickets = Tickets::new(alloc);
    for (before, row) in rows.iter().enumerate() {
        match add_user(&mut directory, &mut tickets, row) {
            Ok(()) => {}
            Err(fault) => return Err((before + 1, fault)),
        }
    }
    Ok((directory, tickets))
}

/// Adds the groups of these tables, or answers the first fault and the number of its table.
pub(crate) fn read_groups(
    alloc: Global,
    directory: &mut Directory,
    rows: &[Value],
) -> Result<(), (usize, TableFault)>
    requires { directory.old.groups ≡ [] }
    ensures due { OnOk result (first_fault (group_refused directory.old.users) [] (map view rows.now) ≡ None) }
    ensures groups { OnOk result (directory.new ≡ record { users = directory.old.users; groups = map group_of (map view rows.now) }) }
    ensures err { IfErr result (λ f. f.1 ≢ Short → first_fault (group_refused directory.old.users) [] (map view rows.now) ≡ Some f) }
{
    for (before, row) in rows.iter().enumerate() {
        match add_group(alloc, directory, row) {
            Ok(()) => {}
            Err(fault) => return Err((before + 1, fault)),
        }
    }
    Ok(())
}
