//! What a screen is to show: rows of characters, each plain or in reverse, and a cursor.
//!
//! A [`Grid`] is made once for a screen. Each drawing call fills whole rows of it and takes no memory: a [`Line`] is one
//! row, and characters, numbers and words are written into its cells. Rows and columns count from 0.
#![tactic(auto)]

mod cells;
mod echo_row;
mod grid;
mod lists;
mod mask;
mod mode_line;
mod prompts;
mod row_set;
mod screen_row;
mod shift;
mod window;

pub use grid::Grid;
pub use row_set::RowSet;
pub use screen_row::Line;
pub use shift::{ShiftedRow, shift_for};
