// What an act of a session comes to.
use crate::action::Action;
use mgs_model::{Arrangement, Entry, Message, Name, NewOwner, Question, Setting};
use mgs_windows::{RowPane, WindowMarks};

/// What becomes of an access list.
#[derive(Clone, Copy)]
pub enum EntryPlan {
    /// An entry comes before the one of a number; without one it is the last.
    Insert(Option<usize>, Entry),
    /// The entry of a number goes; without one it is the first.
    Delete(Option<usize>),
    /// Another one takes its place.
    Replace(Option<usize>, Entry),
}

/// What an act of a session comes to, once it is decided.
#[derive(Clone, Copy)]
pub enum Outcome {
    /// It fails, and this is told.
    Fails(Message),
    /// A command on the text that the selected window shows, through that window's marks; the number is the place of its buffer among all.
    Acts(WindowMarks, usize, Action),
    /// The buffer of a name goes.
    Kills(Name),
    /// The buffer of a name gets an owner, or an owning group, or none.
    SetsOwners(Name, NewOwner),
    /// The access list of the buffer of a name changes.
    SetsList(Name, EntryPlan),
    /// The selected window comes to the access list of the buffer of a name.
    Lists(Name),
    /// The selected window comes to the buffer of a name, which is there.
    Shows(Name),
    /// A buffer is made for the session's user, and shown.
    Creates(Name),
    /// The text of the buffer of a name comes in at a place, through the window's marks.
    Copies(WindowMarks, Name, usize),
    /// The text of the buffer of a name is saved, if its store does so.
    Saves(Name),
    /// The selected window, which shows a list, comes to these rows.
    Scrolls(RowPane),
    /// The session is set otherwise, by an argument.
    Sets(Setting, Option<usize>),
    /// A question is asked, which keeps the argument for its command.
    Asks(Question, Option<u32>),
    /// The windows are arranged anew, by an argument.
    Arranges(Arrangement, Option<usize>),
}
