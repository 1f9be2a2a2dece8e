//! A server that shows nothing before a journal keeps by what access it may be shown.
//!
//! [`Kept`] stands between a server and its connections. After each event it compares the rights and the birth number of each buffer with
//! the rows of its [`Journal`], and has the journal keep what differs, in one call. Once the journal failed nothing more is shown.
#![tactic(auto)]

mod access_changes;
mod difference;
mod kept;
mod kept_texts;
mod round;
mod session_users;
mod tellings;

pub use kept::Kept;
pub use kept_texts::text_sum;
pub use mgs_journal::{Journal, JournalFault, Told};
