//! The tables of the journal, in a SQLite file: who may do what with which buffer, what its text is, and what
//! happened. They know texts and numbers alone.
//!
//! What a call says of values, it says of a disk that returned what was written to it (`HasCleanDisk`). A crash at any moment leaves the
//! file as it was before a change or after it (`Survives`).
#![tactic(auto)]

mod both;
mod carried_over;
mod contents;
mod copied_file;
mod event_table;
mod first_event;
mod log_check;
mod open_file;
mod row_changes;
mod rows;
mod schema;
mod text_table;

pub use contents::{read_events, read_rights};
pub use copied_file::open_copy;
pub use event_table::newest;
pub use first_event::put_numbered;
pub use log_check::test_log;
pub use open_file::{OpenFault, open, open_over, prepare};
pub use row_changes::put_changes;
pub use rows::{Event, EventRow, Fault, Rights, RightsRow, RowChange, Text, TextRow};
pub use schema::{grow_to_2, grow_to_3, make, version};
pub use text_table::{put_text, read_texts};
