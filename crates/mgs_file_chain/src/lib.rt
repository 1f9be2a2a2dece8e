//! The names of a journal's files, as one file follows another.
//!
//! A journal is kept in one file at a time, with a log beside it. Once the file is long, the next file is made beside it and filled, and then
//! [`follow`] puts it in its place, name by name. A crash after any of these steps leaves one file that a start finds: [`crash_keeps`].
#![tactic(auto)]

mod laws;
mod names;

pub use laws::{crash_finds_one, crash_keeps, settling_finds_the_same};
pub use names::{FileNames, follow, settle};
