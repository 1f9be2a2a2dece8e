//! Connections to a server: the login line that each begins with, then the bytes of a session, in both directions.
//!
//! [`pump_in`] reads once from a connection and hands what it read to the server; [`pump_out`] writes what waits for its
//! terminal. Both go over any reader, any writer and any server with [`Sessions`].
#![tactic(auto)]

mod conn;
mod law;
mod line;
mod login;
mod pump;
mod refusal;
mod served;
mod sessions;
mod stream;

pub use conn::Conn;
pub use law::reads_in_pieces;
pub use login::LOGIN_LIMIT;
pub use pump::{PumpedIn, PumpedOut, pump_in, pump_in_by, pump_out};
pub use refusal::Refusal;
pub use served::Served;
pub use sessions::Sessions;
pub use stream::Stream;
