//! A text with marks in one block of memory with a gap, in which an edit at the gap moves no other character.
#![tactic(auto)]

mod block;
mod cells;
mod feeds;
mod gap;
mod lined_block;
mod moves;
mod places;
mod slides;

pub use gap::GapText;
