//! Filling, letters in another case, and white space: what each command on them rewrites, as a small value. A planner reads a text and
//! changes nothing, and what it answers takes no memory.
#![tactic(auto)]

mod cases;
mod fills;
mod rewrite;
mod whites;

pub use cases::{case_region, case_words, change_case};
pub use fills::{fill_paragraph, refill};
pub use rewrite::{Case, Given, Point, Rewrite, Written};
pub use whites::{delete_blank_lines, delete_horizontal_space, join_line, just_one_space};
