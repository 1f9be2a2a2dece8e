//! The bytes that paint a grid on a terminal: whole, or where it differs from what the terminal shows.
#![tactic(auto)]

mod picture_changes;
mod put;
mod whole;

pub use picture_changes::{paint, paint_rows};
pub use whole::{bound, first};
