// The world of a server.
use mgs_buffers::Buffers;
use mgs_marks::Marked;
use mgs_policy::Directory;
use mgs_session::Session;

/// The world of a server, handed about as one. Its parts are public, so that two of them can be lent at once.
#[derive(Drop)]
pub struct World<T: Marked + Drop> {
    /// The users and groups, which no event changes.
    pub directory: Directory,
    /// The buffers, with the marks of all windows.
    pub buffers: Buffers<T>,
    /// The open sessions, in the order in which they opened.
    pub sessions: Vec<Session>,
}
