//! Access lists: at most 64 entries in order, and how an entry is read and printed.
#![tactic(auto)]

mod characters;
mod entry_printer;
mod entry_reader;
mod list;

pub use entry_printer::print_entry;
pub use entry_reader::{entry_typed, group_named, read_entry, user_named};
pub use list::{List, ListFault};
pub use mgs_model::{Entry, EntryFault, EntryType, Who};
