//! What `mgd-keep` does: it serves a configuration with a journal of rights and events in a folder, and prints what the journal tells.
#![tactic(auto)]

mod events;
mod folder;
mod folder_files;
mod keep_arguments;
mod launch;
mod line_printer;
mod live;
mod program;
mod repair;
mod service;
mod shared_printer;
mod standard_output;
mod status;
mod trial;
mod turns;
mod watch;

pub use launch::{StartFault, start};
pub use program::run;
pub use status::{FAILED, IN_USE, JOURNAL_FAILED, NO_SOCKETS, PRINTED, WRONG_ARGUMENTS};
