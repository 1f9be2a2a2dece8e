// What a planner is given, and the plan that it answers.
use mgs_fill::Case;
use mgs_model::{Kind, Message, Notice};

/// What a planner is given beside the text.
#[derive(Clone, Copy, PartialEq, Eq)]
pub struct Around {
    /// Where the command acts.
    pub place: usize,
    /// The mark of the window, where it is set.
    pub mark: Option<usize>,
    /// The argument, where one was typed.
    pub argument: Option<usize>,
    /// How many characters the kill buffer has.
    pub killed: usize,
    /// The kind of the session's last command.
    pub kind: Kind,
    /// How many rows the window has above its mode line.
    pub height: usize,
    /// The fill column, 1 to 9,999.
    pub fill: usize,
}

/// Where the point goes.
#[derive(Clone, Copy, PartialEq, Eq)]
pub enum Goes {
    /// Nowhere but where the edit moves it.
    Stays,
    /// To this position of the text as it is then.
    To(usize),
    /// After what is put in.
    Behind,
}

/// What becomes of the kill buffer when a piece is killed.
#[derive(Clone, Copy, PartialEq, Eq)]
pub enum Joins {
    /// It is the piece alone.
    New,
    /// The piece goes behind it.
    Behind,
    /// The piece goes in front of it.
    InFront,
}

/// A piece of the text, as it was before the edit, that is killed or copied: from a position up to another.
#[derive(Clone, Copy, PartialEq, Eq)]
pub struct Piece {
    /// Where it begins.
    pub from: usize,
    /// Where it ends.
    pub to: usize,
    /// What becomes of the kill buffer by it.
    pub joins: Joins,
}

/// What a command leaves.
#[derive(Clone, Copy, PartialEq, Eq)]
pub struct Finish {
    /// Where the point goes.
    pub point: Goes,
    /// Where the mark is set, if it is.
    pub mark: Option<usize>,
    /// Where the window's top goes, if it does.
    pub top: Option<usize>,
    /// What is killed or copied, if anything is.
    pub kill: Option<Piece>,
    /// The kind of the session's last command from then on.
    pub kind: Kind,
    /// What the echo text tells.
    pub told: Message,
}

/// What is put in.
#[derive(Clone, Copy, PartialEq, Eq)]
pub enum Put {
    /// No character.
    Nothing,
    /// A character so many times.
    Character {
        /// The character.
        put: char,
        /// How many times.
        times: usize,
    },
    /// The kill buffer so many times.
    KillBuffer {
        /// How many times.
        times: usize,
    },
    /// So many line feeds, and the characters of the text from `from` up to `to`.
    Indented {
        /// How many line feeds.
        feeds: usize,
        /// Where the characters begin.
        from: usize,
        /// Where they end.
        to: usize,
    },
    /// The two characters of the text before and after a position, in the other order.
    Exchanged {
        /// The position.
        at: usize,
    },
    /// The characters of the text from `from` up to `to`, in another case.
    Cased {
        /// Where the characters begin.
        from: usize,
        /// Where they end.
        to: usize,
        /// The case that they come in.
        case: Case,
    },
    /// The words from `from` up to `to`, filled up to a column: `len` characters.
    Filled {
        /// Where the words begin.
        from: usize,
        /// Where they end.
        to: usize,
        /// The column.
        fill: usize,
        /// How many characters come in.
        len: usize,
    },
}

/// An edit, and what is left when it is done: the characters from `from` up to `to` are taken out, and `put` comes in
/// their place.
#[derive(Clone, Copy, PartialEq, Eq)]
pub struct Change {
    /// Where what is taken out begins.
    pub from: usize,
    /// Where it ends.
    pub to: usize,
    /// What comes in.
    pub put: Put,
    /// What is left.
    pub finish: Finish,
}

/// An undo, and what is left when it is done: `gone` characters from `from` on are taken out, and the characters that the
/// edit of a serial took out come back in their place.
#[derive(Clone, Copy, PartialEq, Eq)]
pub struct Undone {
    /// Where what is taken out begins.
    pub from: usize,
    /// How many characters are taken out.
    pub gone: usize,
    /// The serial of the edit that is undone.
    pub serial: u64,
    /// How many characters come back.
    pub len: usize,
    /// What is left.
    pub finish: Finish,
}

/// Nothing moves, and nothing is told.
pub(crate) const STAYS: Finish = Finish {
    point: Goes::Stays,
    mark: None,
    top: None,
    kill: None,
    kind: Kind::Other,
    told: Message::Says(Notice::Silent),
};
