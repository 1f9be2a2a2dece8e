//! The configuration of a server, read from a TOML document: its users with their tickets, its groups and its buffers.
#![tactic(auto)]

mod buffer_tables;
mod config;
mod config_fault;
mod document;
mod fill;
mod named_files;
mod row;
mod user_tables;

pub use config::{BufferFile, Config, read_config};
pub use config_fault::{ConfigFault, ConfigTable, TableFault};
pub use named_files::{Files, FilesFault};
