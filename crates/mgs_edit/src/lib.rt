//! What each command that acts on a text does, as a plan: a small value that says what is taken out, what is put in and
//! what is left. A planner reads a text and changes nothing, and a plan takes no memory.
#![tactic(auto)]

mod alterations;
mod around;
mod families;
mod insertions;
mod motions;
mod numbers;
mod plan;
mod rewrite_changes;
mod scrolls;
mod sizes;
mod undos;
mod written;

pub use alterations::alteration;
pub use families::{Failure, Plan, plan_command};
pub use insertions::{insertion, reading_insertion};
pub use mgs_fill::{Case, refill};
pub use motions::motion;
pub use numbers::line_wanted;
pub use plan::{Around, Change, Finish, Goes, Joins, Piece, Put, Undone};
pub use scrolls::{scroll, scrolled_row};
pub use sizes::{
    is_edit, is_kill_too_large, is_too_long, is_undo_an_edit, is_undo_too_long, put_len,
};
pub use undos::{undo, undo_target};
pub use written::put_chars;
