//! The ledger: a journal that keeps in SQLite tables by what access to each buffer is decided, and what happened.
//!
//! [`Ledger`] is a `Journal`. The changes of one event are committed with their events in one transaction before the call returns. What else is
//! told is gathered, and committed with the next change or text, when [`GATHER_LIMIT`] are gathered, or a second later. Equal denials and
//! equal refused logins of one second are one event with a count. A user has 20 gathered events a second; past them one event, `more`, counts
//! the rest. An event of a list names the entries that differ. Each event is a line on a writer once it is committed. [`audit`] prints the
//! lines of all events again. Both refuse tables whose rights are not those that the events tell. A text is kept whole, in the place of the one
//! before.
#![tactic(auto)]

mod agreement;
mod batch;
mod event_line;
mod event_lines;
mod gathering;
mod history;
mod laws;
mod ledger;
mod ledger_fault;
mod list_change;
mod log;
mod new_file;
mod planned;
mod repeat;
mod rights_spelling;
mod snapshot;
mod stored_rights;
mod stored_texts;
mod taken;
mod tally;
mod value;

pub use agreement::test_tables;
pub use event_lines::{AuditFault, Filter, audit};
pub use laws::{all_is_counted, each_user_is_counted, lists_are_followed};
pub use ledger::Ledger;
pub use ledger_fault::LedgerFault;
pub use log::GATHER_LIMIT;
