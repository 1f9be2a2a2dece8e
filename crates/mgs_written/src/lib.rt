//! What is written of a text, and what is read of a file: as UTF-8, by any writer and reader, in fixed room; and how a text comes in
//! the place of a file.
#![tactic(auto)]

mod file_reader;
mod paths;
mod save_steps;
mod text_writer;

pub use file_reader::{read_start, read_whole};
pub use paths::{Opens, read_at, read_start_at};
pub use save_steps::{Replaces, replace};
pub use text_writer::{encoded_len, write_text};
