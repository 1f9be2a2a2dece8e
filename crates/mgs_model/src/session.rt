// The words for a session's state.
ghost use Rattle.std.specs.Prelude.{◌≡◌};
ghost use Rattle.mgs_model.specs.Commands.{asked};
ghost use Rattle.mgs_model.specs.declared.session.Command.TheVariants.{Named};
ghost use Rattle.mgs_model.specs.declared.session.Wanted.TheVariants.{AnyText, BufferName};

use crate::name::Name;
use crate::search::{Direction, SearchStep};
use std::marker::Model;

/// The number of a session. It counts up, and none is used twice.
pub type SessionId = u64;

/// A mark of a text: the number of its slot.
#[derive(Clone, Copy)]
pub struct MarkId {
    slot: usize,
}

impl Model for MarkId {
    ghost use Rattle.std.specs.Prelude.{ℕ};

    ghost Value = { ℕ };

    ghost view = { λ m. m.slot };

    ghost inverse = { λ n. record { slot = n } };
}

impl MarkId {
    /// The mark of a slot.
    pub fn of(slot: usize) -> MarkId
        ensures { result ≡ slot }
    {
        MarkId { slot }
    }

    /// The mark's slot.
    pub fn slot(self) -> usize
        ensures { result ≡ self }
    {
        self.slot
    }
}

/// An argument, and whether a digit goes on with it: C-u is 4, and a digit replaces it.
#[derive(Clone, Copy, PartialEq, Eq)]
pub struct Argument {
    /// The number, 0 to `ARGUMENT_LIMIT` (9,999).
    pub value: u32,
    /// Whether a digit is put behind the number; else it replaces it.
    pub extends: bool,
}

/// What a session is in the middle of.
#[derive(Clone, Copy, PartialEq, Eq)]
pub enum Mode {
    /// Nothing: its bytes are keys.
    Plain,
    /// It types the answer to this.
    Prompt(Question),
    /// It types what is searched for, in this direction; where that was not found last, it is failing.
    Searching { direction: Direction, failing: bool },
    /// It is asked at each match of a text whether it is replaced.
    Replacing,
}

/// The kind of a session's last command.
#[derive(Clone, Copy, PartialEq, Eq)]
pub enum Kind {
    /// Any other, or none yet: the next command goes on with nothing.
    Other,
    /// A kill or a copy: the next one adds its piece.
    Kill,
    /// A motion by lines, and the column that it goes for.
    Line {
        goal: usize,
    },
    /// An undo: the buffer, the serial that it undid, and the serial of its own item.
    Undo {
        buffer: Name,
        target: u64,
        last: u64,
    },
}

/// Puts characters in, and sees nothing of the text but its length.
#[derive(Clone, Copy, PartialEq, Eq)]
pub enum Insertion {
    /// The character that was typed, or that came after C-q.
    SelfInsert(char),
    /// RET: line feeds before the point.
    Newline,
    /// Line feeds after the point.
    OpenLine,
    /// The kill buffer.
    Yank,
}

/// Puts in what depends on the text.
#[derive(Clone, Copy, PartialEq, Eq)]
pub enum ReadingInsertion {
    /// C-j: line feeds, and the spaces and TABs that begin the line.
    NewlineAndIndent,
}

/// Reads the text, and edits nothing.
#[derive(Clone, Copy, PartialEq, Eq)]
pub enum Motion {
    /// C-f: forward by characters.
    ForwardChar,
    /// C-b: back by characters.
    BackwardChar,
    /// C-a: to the start of the line.
    BeginningOfLine,
    /// C-e: to the end of the line.
    EndOfLine,
    /// C-n: down by lines, at most to the column that a run of line motions goes for.
    NextLine,
    /// C-p: up by lines, likewise.
    PreviousLine,
    /// M-<: to the text's start.
    BufferStart,
    /// M->: to the text's end.
    BufferEnd,
    /// To the start of the line of a number.
    GoToLine,
    /// M-f: forward over words of ASCII letters and digits.
    ForwardWord,
    /// M-b: back over words of ASCII letters and digits.
    BackwardWord,
    /// M-}: forward over paragraphs, to the blank line behind or the text's end.
    ForwardParagraph,
    /// M-{: back over paragraphs, to the start of the first line.
    BackwardParagraph,
    /// The point's line comes to the middle of the window.
    Recenter,
    /// C-x =: the point stays, and the echo text tells where it stands.
    WhatCursorPosition,
    /// C-SPC: the mark goes to the point.
    SetMark,
    /// C-x C-x: point and mark change places.
    ExchangePointAndMark,
    /// C-x h: the point goes to the text's start, and the mark to its end.
    MarkWholeBuffer,
    /// M-w: what stands between mark and point is copied to the kill buffer.
    CopyRegion,
}

/// Reads the text and edits it.
#[derive(Clone, Copy, PartialEq, Eq)]
pub enum Alteration {
    /// C-d: takes out characters behind the point.
    DeleteChar,
    /// DEL: takes out characters before the point.
    DeleteBackwardChar,
    /// C-k: kills to the line's end, or the line feed there; by an argument that many lines, and by 0 back to the line's start.
    KillLine,
    /// M-d: kills to where M-f would go.
    KillWord,
    /// M-DEL: kills back to where M-b would go.
    BackwardKillWord,
    /// C-w: kills what stands between mark and point.
    KillRegion,
    /// C-t: exchanges the characters on both sides of the point, at a line's end the two before it.
    TransposeChars,
    /// M-u: ASCII letters become upper case, to where M-f would go.
    UpcaseWord,
    /// M-l: ASCII letters become lower case, to where M-f would go.
    DowncaseWord,
    /// M-c: the first ASCII letter of each word becomes upper case and the others lower case, to where M-f would go.
    CapitalizeWord,
    /// C-x C-u: ASCII letters between mark and point become upper case.
    UpcaseRegion,
    /// C-x C-l: ASCII letters between mark and point become lower case.
    DowncaseRegion,
    /// The white around the point becomes one space.
    JustOneSpace,
    /// M-\: takes out the spaces and TABs around the point.
    DeleteHorizontalSpace,
    /// C-x C-o: takes out the blank lines below; in a blank line, it and those around it become one empty line.
    DeleteBlankLines,
    /// The line is joined to the one above.
    JoinLine,
    /// M-q: the words of the paragraph are written anew, in lines up to the fill column.
    FillParagraph,
}

/// Looks for what was typed, reads the text, and edits nothing.
#[derive(Clone, Copy, PartialEq, Eq)]
pub enum Seeking {
    /// To the next match of what was typed at a prompt.
    SearchFor(Direction),
    /// An incremental search begins.
    StartSearch(Direction),
    /// A step of an incremental search for what was typed so far.
    SearchOn(Direction, SearchStep),
    /// A query-replace begins.
    StartReplace,
    /// A match stays as it is.
    SkipMatch,
}

/// Reads the text, and puts what was typed in the place of a match.
#[derive(Clone, Copy, PartialEq, Eq)]
pub enum Replacement {
    /// And goes on to the next match.
    ReplaceMatch,
    /// The match is the last one that is replaced.
    ReplaceLast,
}

/// Goes on or back by a screen: in a text by lines, in a listing or an access list by rows.
#[derive(Clone, Copy, PartialEq, Eq)]
pub enum Scrolling {
    /// C-v: on, to what is further down.
    ScrollUp,
    /// M-v: back, to what is further up.
    ScrollDown,
}

/// Changes the session's own record alone.
#[derive(Clone, Copy, PartialEq, Eq)]
pub enum Setting {
    /// C-x f: the fill column becomes the argument, 1 to 9,999.
    SetFillColumn,
    /// C-g: gives up an argument, a word of keys, and a macro that is recorded.
    KeyboardQuit,
    /// C-x (: a macro is recorded from here on.
    StartMacro,
    /// C-x ): the macro that is recorded is complete.
    EndMacro,
    /// C-x e: plays the last macro, up to 100 times.
    CallMacro,
}

/// Changes the session's windows alone.
#[derive(Clone, Copy, PartialEq, Eq)]
pub enum Arrangement {
    /// C-x 0: the selected window goes; its rows go to the one above, or below for the first.
    DeleteWindow,
    /// C-x 1: the selected window takes all rows.
    DeleteOtherWindows,
    /// C-x 2: the selected window becomes two that show the same, of which the upper one is selected.
    SplitWindow,
    /// C-x o and C-x n: the next window is selected, after the last the first.
    NextWindow,
    /// C-x p: the window before is selected, before the first the last.
    PreviousWindow,
    /// C-x ^: rows go to the selected window from the one below, or above for the last.
    EnlargeWindow,
    /// shrink-window: rows of the selected window go to the one below, or above for the last.
    ShrinkWindow,
    /// C-x C-b: the selected window comes to the list of buffers.
    ListBuffers,
}

/// Acts on a buffer by the name that was typed for it.
#[derive(Clone, Copy, PartialEq, Eq)]
pub enum ByName {
    /// C-x b and C-x C-f: the selected window comes to it; where there is none, it is made.
    SwitchToBuffer,
    /// C-x k: it goes, for everybody; an empty name means the one whose text or list the selected window shows.
    KillBuffer,
    /// insert-buffer: its text is put into the one that the selected window shows.
    InsertBuffer,
}

/// Changes an access list.
#[derive(Clone, Copy, PartialEq, Eq)]
pub enum EntryChange {
    /// acl-insert: the typed entry is put before the one that the argument counts from 1, without an argument last.
    InsertEntry,
    /// acl-delete: takes out the entry that the argument counts from 1, without an argument the first.
    DeleteEntry,
    /// acl-replace: the typed entry takes the place of the one that the argument counts, without an argument of the first.
    ReplaceEntry,
}

/// What a prompt asks for.
#[derive(Clone, Copy, PartialEq, Eq)]
pub enum Question {
    /// `Switch to buffer:`, of C-x b: the name of the buffer that is shown then.
    SwitchTo,
    /// `Find file:`, of C-x C-f: asks the same.
    FindWhich,
    /// `Kill buffer:`, of C-x k: the name of the buffer that goes.
    KillWhich,
    /// `Insert buffer:`, of insert-buffer: the name of the buffer whose text is put in.
    InsertWhich,
    /// The name of a command, which is then run.
    RunWhich,
    /// The number of a line.
    GoToWhich,
    /// The text of an entry that is put in.
    EntryToInsert,
    /// The text of an entry that takes the place of another.
    EntryToReplace,
    /// `Owner:`, of set-owner: the name of a user.
    WhichOwner,
    /// `Group:`, of set-group: the name of a group, or nothing for none.
    WhichGroup,
    /// The pattern of a search that is no incremental one.
    SearchWhat(Direction),
    /// `Query replace:`, of M-%: what is replaced.
    ReplaceWhat,
    /// `With:`, of M-% then: what is put in its place, which may be nothing.
    ReplaceWith,
}

/// What a question wants for an answer. A TAB completes a name.
#[derive(Clone, Copy, PartialEq, Eq)]
pub enum Wanted {
    /// The name of a buffer.
    BufferName,
    /// The name of a command.
    CommandName,
    /// Any text.
    AnyText,
}

/// A row of the table of questions.
#[derive(Clone, Copy)]
pub struct Asking {
    /// What stands before the answer.
    pub text: &'static [u8],
    /// What is wanted.
    pub wanted: Wanted,
    /// The command that the answer is for.
    pub command: Command,
}

// A row of a question that wants the name of a buffer, for a command on it.
fn for_buffer(text: &'static [u8], command: ByName) -> Asking
    ensures text { result.text.now ≡ text.now }
    ensures wanted { result.wanted ≡ BufferName }
    ensures command { result.command ≡ Named command }
{
    Asking {
        text,
        wanted: Wanted::BufferName,
        command: Command::Named(command),
    }
}

// A row of one that wants any text, for a command that reads it.
fn for_text(text: &'static [u8], command: Command) -> Asking
    ensures text { result.text.now ≡ text.now }
    ensures wanted { result.wanted ≡ AnyText }
    ensures command { result.command ≡ command }
{
    Asking {
        text,
        wanted: Wanted::AnyText,
        command,
    }
}

impl Question {
    /// The question's row.
    pub fn asking(self) -> Asking
        ensures text { result.text.now ≡ (asked self).text }
        ensures wanted { result.wanted ≡ (asked self).wanted }
        ensures command { result.command ≡ (asked self).command }
    {
        match self {
            Question::SwitchTo => for_buffer(b"Switch to buffer: ", ByName::SwitchToBuffer),
            Question::FindWhich => for_buffer(b"Find file: ", ByName::SwitchToBuffer),
            Question::KillWhich => for_buffer(b"Kill buffer: ", ByName::KillBuffer),
            Question::InsertWhich => for_buffer(b"Insert buffer: ", ByName::InsertBuffer),
            Question::RunWhich => Asking {
                text: b"M-x ",
                wanted: Wanted::CommandName,
                command: Command::Ask(Question::RunWhich),
            },
            Question::GoToWhich => for_text(b"Goto line: ", Command::Move(Motion::GoToLine)),
            Question::EntryToInsert => {
                for_text(b"Entry: ", Command::Entries(EntryChange::InsertEntry))
            }
            Question::EntryToReplace => {
                for_text(b"Entry: ", Command::Entries(EntryChange::ReplaceEntry))
            }
            Question::WhichOwner => for_text(b"Owner: ", Command::SetOwner),
            Question::WhichGroup => for_text(b"Group: ", Command::SetGroup),
            Question::SearchWhat(direction) => {
                for_text(b"Search: ", Command::Seek(Seeking::SearchFor(direction)))
            }
            Question::ReplaceWhat => {
                for_text(b"Query replace: ", Command::Ask(Question::ReplaceWith))
            }
            Question::ReplaceWith => for_text(b"With: ", Command::Seek(Seeking::StartReplace)),
        }
    }
}

/// What a word of keys tells a session to do, by what it may see and do.
#[derive(Clone, Copy, PartialEq, Eq)]
pub enum Command {
    /// Puts characters in: needs APPEND_DATA at the text's end, and WRITE_DATA elsewhere.
    Insert(Insertion),
    /// Puts in what depends on the text: needs READ_DATA too.
    InsertReading(ReadingInsertion),
    /// Reads the text: needs READ_DATA.
    Move(Motion),
    /// Reads the text and edits it: needs READ_DATA and WRITE_DATA.
    Alter(Alteration),
    /// Searches: needs READ_DATA.
    Seek(Seeking),
    /// Replaces a match: needs READ_DATA and WRITE_DATA.
    Replace(Replacement),
    /// Scrolls: needs READ_DATA in a text, and no right in a listing or an access list.
    Scroll(Scrolling),
    /// Changes the session's own record: needs no right.
    Set(Setting),
    /// Changes the session's windows: needs no right.
    Rearrange(Arrangement),
    /// Opens a prompt.
    Ask(Question),
    /// Acts on a buffer by its name: needs READ_ATTRIBUTES to show it, DELETE to kill it, READ_DATA to take its text.
    Named(ByName),
    /// Changes the access list: needs WRITE_ACL.
    Entries(EntryChange),
    /// Shows the access list.
    ListEntries,
    /// set-owner: gives the buffer to a user, by WRITE_OWNER.
    SetOwner,
    /// set-group: gives the buffer to a group or to none, by WRITE_OWNER.
    SetGroup,
    /// C-_ and C-x u: takes the last edit of the text back, whoever made it.
    UndoEdit,
    /// Clears the modified flag.
    NotModified,
    /// C-x C-s: the text goes to the store, and the modified flag is cleared.
    SaveBuffer,
    /// Ends a search where it began.
    LeaveSearch,
    /// Ends the session.
    Exit,
}
