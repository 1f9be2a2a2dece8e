// What can happen to the server.
use crate::name::Name;
use crate::session::SessionId;

/// One event. It is handled whole, with all that it paints, before the next.
#[derive(Clone, Copy, PartialEq, Eq)]
pub enum Event {
    /// A session opens: the user's name, and the rows and columns of the terminal.
    Open {
        id: SessionId,
        user: Name,
        rows: usize,
        cols: usize,
    },
    /// A session sends a byte.
    Byte {
        id: SessionId,
        byte: u8,
        /// What the store answers to a save.
        stored: bool,
        /// After how many acts memory is refused, if it is.
        stop: Option<usize>,
    },
    /// A session closes.
    Close {
        id: SessionId,
    },
}
