// What a command on a text comes to.
use mgs_edit::{Change, Finish, Undone};
use mgs_model::{Mask, Message};

/// What a command on a text comes to, once it is decided.
#[derive(Clone, Copy)]
pub enum Action {
    /// It fails, and this is told.
    Fails(Message),
    /// It edits, by these rights.
    Edits(Mask, Change),
    /// An edit of the buffer's record is taken back.
    Undoes(Undone),
    /// It edits nothing.
    Moves(Finish),
    /// The buffer's modified flag is cleared.
    Clears,
}
