//! A server of terminals over sockets: connections on the loopback address, each with a login line and then a session.
//!
//! [`Server::listen`] opens the port and [`Server::turn`] does what is there to be done; both go in one thread. It serves any sessions
//! that are [`Served`](mgs_wire::Served): [`Server::over`].
#![tactic(auto)]

mod accept;
mod peer;
mod server;
mod server_fault;
mod sockets;
mod turns;

pub use peer::BYTES_AT_ONCE;
pub use server::{EngineServer, Server};
pub use server_fault::{ListenFault, PollFailed};
pub use turns::TakesTurns;
