//! The buffers of a server, in order of creation: each a text with marks, its access list, its owners and its latest edits.
#![tactic(auto)]

mod at_place;
mod buffer;
mod buffers;
mod completion;
mod found;
mod judgement;
mod list_row;
mod refusals;
mod rights;
mod rules;
mod save;
mod search_step;
mod searched_text;
mod typed_name;
mod user_changes;
mod writer;

pub use buffers::Buffers;
pub use found::Found;
pub use list_row::Attributes;
pub use mgs_store::{Store, StoreFault};
pub use refusals::{AddFault, EditFault, EntriesFault, OwnersFault, SaveFault};
pub use rights::Rights;
pub use writer::Writer;
