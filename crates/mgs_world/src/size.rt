// What is told of a session from outside.
use mgs_model::SessionId;

/// An open session: its id, and the rows and columns of its screen.
#[derive(Clone, Copy, PartialEq, Eq)]
pub struct Size {
    /// Which session it is: no other had this id before.
    pub id: SessionId,
    /// The rows of its screen, 6 to 64.
    pub rows: usize,
    /// The columns of its screen, 20 to 160.
    pub cols: usize,
}
