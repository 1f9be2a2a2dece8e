//! The account of rights: what the events of the journal, one after another, tell of the owner, group and list of each buffer.
//!
//! [`Account`] takes the events page by page. It tells the rights of all buffers after the last event, and the number of the first event that
//! does not follow from those before it.
#![tactic(auto)]

mod account;
mod list_change;
mod part;
mod row_changes;
mod told_rights;
mod whole_part;

pub use account::Account;
pub use told_rights::ToldRights;
