// Why a server does not listen, or does not go on.
use thiserror::Error;

/// Why a server does not listen. Nothing is left of it.
#[derive(Clone, Copy, Debug, PartialEq, Eq, Error)]
#[error("listening failed")]
pub enum ListenFault {
    /// The port cannot be had.
    Port,
    /// Memory was refused.
    Short,
}

/// The system did not tell which connections are ready.
#[derive(Clone, Copy, Debug, PartialEq, Eq, Error)]
#[error("poll failed")]
pub struct PollFailed;
