//! Reads the lines of a replay script: cuts them, reads their words and texts, and says what each line says.
#![tactic(auto)]

mod cut;
mod kind;
mod line;
mod line_reader;
mod text;
mod word;

pub use cut::cut_line;
pub use line::{Line, LineFault};
pub use line_reader::{read_line, typed_label};
