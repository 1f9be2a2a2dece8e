//! Scripts: read whole, and played line by line over a server that has nothing yet, with a terminal for each label.
#![tactic(auto)]

mod calls;
mod client;
mod clients;
mod law;
mod lines;
mod player;
mod print;
mod script;
mod setup;

pub use law::output_is_determined;
pub use script::{ReplayFault, replay, replay_over};
