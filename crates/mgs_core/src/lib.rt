//! The server's world: its directory, buffers and sessions. One call of `Core` is one event.
#![tactic(auto)]

mod byte_acts;
mod denial;
mod key_byte;
mod laws;
mod secrecy;
mod server;
mod turn;
mod typed_byte;
mod world;

pub use laws::{kill_stays, outcomes_are_lawful, settled_stays};
pub use mgs_model::{Keyed, OpenFault, SessionId};
pub use mgs_world::Size;
pub use secrecy::{hidden_act, hidden_text, purged};
pub use server::Core;
