//! The program's work, and the status with which it ends: a script is replayed, or a configuration is served.
//!
//! [`run`] is the program; the other calls are its parts, over any input and output, any disk and any clock.
#![tactic(auto)]

mod program;
mod script_replay;
mod service;

pub use program::{run, run_over};
pub use script_replay::replay_script;
pub use service::{StartFault, open_server, serve, serve_config};
