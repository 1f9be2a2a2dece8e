//! The key map: keys become commands and their arguments, by one table, and so do the names of commands.
#![tactic(auto)]

mod argument;
mod keyboard;
mod maps;
mod names;
mod table;

pub use keyboard::Keyboard;
pub use maps::{Fed, Maps};
pub use names::{command_named, name_completion};
pub use table::{Binding, bindings};
