// Echo texts.
ghost use Rattle.std.specs.Prelude.{◌≡◌};
ghost use Rattle.std.specs.Option.{option_map};
ghost use Rattle.mgs_model.specs.Messages.{notice_text, text_in};

use crate::entry::{Decision, EntryFault};
use crate::name::Name;

/// Where a point stands in its text: the number of characters before it and in all, its line from 1 and its column
/// from 0.
#[derive(Clone, Copy, PartialEq, Eq)]
pub struct CursorPosition {
    /// The number of characters before the point.
    pub point: usize,
    /// The number of characters of the text.
    pub size: usize,
    /// The number of the point's line, from 1.
    pub line: usize,
    /// The point's column, from 0.
    pub column: usize,
}

/// What a session's echo line says. `specs/Messages.antt` has the texts.
#[derive(Clone, Copy, PartialEq, Eq)]
pub enum Message {
    /// The same text each time.
    Says(Notice),
    /// A right that the command needs is not granted.
    Denied(Decision),
    /// The character after the point, and where the point stands.
    CharacterAt(char, CursorPosition),
    /// The point stands at the text's end.
    EndAt(CursorPosition),
    /// The text that was typed is no entry.
    BadEntry(EntryFault),
    /// `Wrote` and the name of the buffer that was saved.
    Wrote(Name),
    /// `Replaced` and how many matches a query-replace replaced.
    Replaced(usize),
}

/// An echo text that is the same each time. `NOTICES` has the texts.
#[derive(Clone, Copy, PartialEq, Eq)]
pub enum Notice {
    /// Nothing.
    Silent,
    /// `Key not bound`: the word of keys has no command, or bytes past ASCII are no character.
    KeyNotBound,
    /// The selected window shows no buffer.
    NoBuffer,
    /// `Beginning of buffer`: nothing before the point to go over or to take out.
    BeginningOfBuffer,
    /// `End of buffer`: nothing behind the point to go over or to take out.
    EndOfBuffer,
    /// The text would pass its limit, or the buffer's last serial is used.
    BufferFull,
    /// `No memory`: memory was refused.
    NoMemory,
    /// The text of a C-g.
    Quitting,
    /// `Mark set`: the answer to C-SPC.
    MarkSet,
    /// `No mark`: the window has none.
    NoMark,
    /// `Kill too large`: the kill buffer would be longer than a text may be.
    KillTooLarge,
    /// `Nothing to yank`: the kill buffer is empty.
    NothingToYank,
    /// `No argument`: C-x f without one.
    NoArgument,
    /// `Bad column`: C-x f with the argument 0.
    BadColumn,
    /// `In macro`: a command that cannot be run while a macro is recorded or played.
    InMacro,
    /// `Not in macro`: C-x ) while none is recorded.
    NotInMacro,
    /// `No macro`: C-x e where none was recorded, or an empty one.
    NoMacro,
    /// `Too many`: C-x e with an argument past 100.
    TooMany,
    /// `Only one window`: no other can take rows, or give them.
    OnlyOneWindow,
    /// `Window too small`: C-x 2 in a window of less than 3 rows.
    WindowTooSmall,
    /// `Too many windows`: C-x 2 where there are 8.
    TooManyWindows,
    /// `Impossible change`: the window that gives rows would have none left.
    ImpossibleChange,
    /// `No such buffer`: what was typed for C-x k or insert-buffer names none.
    NoSuchBuffer,
    /// `Bad name`: what was typed for C-x b or C-x C-f can be no name of a buffer.
    BadName,
    /// `Too many buffers`: one more would be made where there are 256.
    TooManyBuffers,
    /// `No match`: TAB where no name that may be seen begins with what was typed.
    NoMatch,
    /// `No such command`: what was typed for M-x names none.
    NoSuchCommand,
    /// `Not a number`: what was typed for C-x g is not 1 to 7 digits.
    NotANumber,
    /// `No such entry`: the access list has no place of that number.
    NoSuchEntry,
    /// The access list has as many entries as it may have.
    ListFull,
    /// `No such user`: what was typed for set-owner names none of the directory.
    NoSuchUser,
    /// `No such group`: what was typed for set-group names none of the directory.
    NoSuchGroup,
    /// `No further undo information`: there is no edit to take back, or it is kept no longer.
    NoFurtherUndo,
    /// `No file`: C-x C-s where the buffer has none.
    NoFile,
    /// `Save failed`: the store did not take the text.
    SaveFailed,
    /// `No pattern`: nothing is there to be looked for.
    NoPattern,
    /// A search found no match.
    NotFound,
    /// A byte is one too many for the macro that is recorded.
    MacroTooLong,
}

/// The text of each notice. `specs/Messages.antt` spells them as well, and a lemma proves the two equal.
pub const NOTICES: &[(Notice, &[u8])] = &[
    (Notice::Silent, b""),
    (Notice::KeyNotBound, b"Key not bound"),
    (Notice::NoBuffer, b"No buffer"),
    (Notice::BeginningOfBuffer, b"Beginning of buffer"),
    (Notice::EndOfBuffer, b"End of buffer"),
    (Notice::BufferFull, b"Buffer full"),
    (Notice::NoMemory, b"No memory"),
    (Notice::Quitting, b"Quit"),
    (Notice::MarkSet, b"Mark set"),
    (Notice::NoMark, b"No mark"),
    (Notice::KillTooLarge, b"Kill too large"),
    (Notice::NothingToYank, b"Nothing to yank"),
    (Notice::NoArgument, b"No argument"),
    (Notice::BadColumn, b"Bad column"),
    (Notice::InMacro, b"In macro"),
    (Notice::NotInMacro, b"Not in macro"),
    (Notice::NoMacro, b"No macro"),
    (Notice::TooMany, b"Too many"),
    (Notice::OnlyOneWindow, b"Only one window"),
    (Notice::WindowTooSmall, b"Window too small"),
    (Notice::TooManyWindows, b"Too many windows"),
    (Notice::ImpossibleChange, b"Impossible change"),
    (Notice::NoSuchBuffer, b"No such buffer"),
    (Notice::BadName, b"Bad name"),
    (Notice::TooManyBuffers, b"Too many buffers"),
    (Notice::NoMatch, b"No match"),
    (Notice::NoSuchCommand, b"No such command"),
    (Notice::NotANumber, b"Not a number"),
    (Notice::NoSuchEntry, b"No such entry"),
    (Notice::ListFull, b"List full"),
    (Notice::NoSuchUser, b"No such user"),
    (Notice::NoSuchGroup, b"No such group"),
    (Notice::NoFurtherUndo, b"No further undo information"),
    (Notice::NoFile, b"No file"),
    (Notice::SaveFailed, b"Save failed"),
    (Notice::NoPattern, b"No pattern"),
    (Notice::NotFound, b"Not found"),
    (Notice::MacroTooLong, b"Macro too long"),
];

fn text_in<'a>(rows: &[(Notice, &'a [u8])], notice: Notice) -> Option<&'a [u8]>
    ensures { option_map (λ text. text.now) result ≡ text_in (λ text. text.now) rows.now notice }
{
    rows.iter().find(|row| row.0 == notice).map(|row| row.1)
}

impl Notice {
    /// What it says: visible ASCII characters and spaces.
    #[tactic(auto, using(crate::proofs::Notices::has_text))]
    pub fn text(self) -> &'static [u8]
        ensures { result.now ≡ notice_text self }
    {
        match text_in(NOTICES, self) {
            Some(text) => text,
            None => unreachable!(),
        }
    }
}
