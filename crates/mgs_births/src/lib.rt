//! Births and deeds: the number of each buffer that was made since the server began, which no other buffer gets, and a tape of what acts
//! did to rights and buffers and of what was denied to them.
#![tactic(auto)]

mod birth;
mod births;
mod deed;
mod laws;
mod tape;
mod with_births;

pub use birth::Birth;
pub use births::Births;
pub use deed::Deed;
pub use laws::{
    deeds_are_kept, deeds_are_lost, effects_are_reported, numbers_differ, numbers_end,
    runs_are_reported,
};
pub use tape::{DEED_LIMIT, Tape};
pub use with_births::WithBirths;
