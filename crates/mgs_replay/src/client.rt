// A label of a script, and its client.
use mgs_model::{Name, SessionId};
use mgs_term::Term;

/// How a session ended.
#[derive(Clone, Copy, PartialEq, Eq)]
pub(crate) enum Cause {
    /// By a byte.
    Quit,
    /// By a `close` line.
    Closed,
}

/// The client of a label.
#[derive(Drop)]
pub(crate) enum Client {
    /// The open was refused.
    Never,
    /// An open session, and its terminal.
    Open { id: SessionId, term: Term },
    /// A session that ended.
    Ended(Cause),
}

/// A label, and its client.
#[derive(Drop)]
pub(crate) struct Labelled {
    /// The label, which no other client has.
    pub(crate) label: Name,
    /// How far its session is.
    pub(crate) client: Client,
}
