//! What the program is asked to do: its arguments, and the configuration that they name.
#![tactic(auto)]

mod arguments;
mod preparation;
mod standard_error;
mod streams;

pub use preparation::{DONE, FAILED, NO_MEMORY, NO_SOCKETS, WRONG_ARGUMENTS, Work, prepare};
pub use standard_error::tell;
