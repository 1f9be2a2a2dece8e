//! The windows of a session are arranged anew: one goes, becomes two, gets rows of another, is selected, or comes to show
//! something else.
#![tactic(auto)]

mod arrangements;
mod heights;
mod lists;
mod place_room;
mod removal;
mod shown_buffer;
mod split;

pub use arrangements::rearrange;
pub use lists::show_entries;
pub use shown_buffer::show;
