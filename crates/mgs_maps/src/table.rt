// The table of keys, names and commands.
ghost use Rattle.std.specs.Prelude.{◌≡◌, find};
ghost use Rattle.std.specs.Option.{option_map};
ghost use Rattle.mgs_model.specs.Names.{same_name};
ghost use Rattle.mgs_model.specs.Keys.{key_rows};
ghost use Rattle.mgs_model.specs.Commands.{keyless_rows};
ghost use Rattle.mgs_maps.specs.Words.{ends_in, last_byte, word_of};
ghost use Rattle.mgs_maps.specs.declared.table.Binding.{Binding};
ghost use Rattle.mgs_maps.specs.Table.{rows_of, command_of};

use crate::maps::{Prefix, Stroke};
use mgs_model::Command::{
    Alter, Ask, Entries, Exit, Insert, InsertReading, ListEntries, Move, NotModified, Rearrange,
    SaveBuffer, Scroll, Seek, Set, UndoEdit,
};
use mgs_model::{
    Alteration, Arrangement, Command, Direction, EntryChange, Insertion, Motion, Question,
    ReadingInsertion, Scrolling, Seeking, Setting,
};

pub(crate) const ESCAPE: u8 = 0x1B;

pub(crate) const CONTROL_X: u8 = 0x18;

// The byte after it is no key.
pub(crate) const QUOTE: u8 = 0x11;

// With Meta the first key of a terminal's arrows.
pub(crate) const BRACKET: u8 = b'[';

/// A row of the table: the bytes of a word of keys, the name of its command, and the command.
#[derive(Clone, Copy)]
pub struct Binding {
    /// C-x is 0x18, and ESC (0x1B) stands before the byte of a key with Meta. Empty where no word runs the command.
    pub keys: &'static [u8],
    /// Empty for the arrows (M-[ A, B, C, D) and other words of commands that have their names in other rows, and for
    /// commands that M-x does not know.
    pub name: &'static str,
    /// What runs.
    pub command: Command,
}

// Rows of the table: the bytes of a word of keys, the name of its command, and the command.
macro_rules! rows {
    ($($keys:literal $name:literal => $command:expr;)*) => {
        &[$(Binding { keys: $keys, name: $name, command: $command }),*]
    };
}

static BINDINGS: &[Binding] = rows! {
    b"\r" "newline" => Insert(Insertion::Newline);
    b"\x06" "forward-char" => Move(Motion::ForwardChar);
    b"\x02" "backward-char" => Move(Motion::BackwardChar);
    b"\x0F" "open-line" => Insert(Insertion::OpenLine);
    b"\n" "newline-and-indent" => InsertReading(ReadingInsertion::NewlineAndIndent);
    b"\x01" "beginning-of-line" => Move(Motion::BeginningOfLine);
    b"\x05" "end-of-line" => Move(Motion::EndOfLine);
    b"\x0E" "next-line" => Move(Motion::NextLine);
    b"\x10" "previous-line" => Move(Motion::PreviousLine);
    b"\x16" "scroll-up" => Scroll(Scrolling::ScrollUp);
    b"\x1Bv" "scroll-down" => Scroll(Scrolling::ScrollDown);
    b"\x0C" "recenter" => Move(Motion::Recenter);
    b"\x1B<" "beginning-of-buffer" => Move(Motion::BufferStart);
    b"\x1B>" "end-of-buffer" => Move(Motion::BufferEnd);
    b"\x1Bf" "forward-word" => Move(Motion::ForwardWord);
    b"\x1Bb" "backward-word" => Move(Motion::BackwardWord);
    b"\x1B}" "forward-paragraph" => Move(Motion::ForwardParagraph);
    b"\x1B{" "backward-paragraph" => Move(Motion::BackwardParagraph);
    b"\x18g" "goto-line" => Move(Motion::GoToLine);
    b"\x18=" "what-cursor-position" => Move(Motion::WhatCursorPosition);
    b"\x04" "delete-char" => Alter(Alteration::DeleteChar);
    b"\x7F" "delete-backward-char" => Alter(Alteration::DeleteBackwardChar);
    b"\x0B" "kill-line" => Alter(Alteration::KillLine);
    b"\x1Bd" "kill-word" => Alter(Alteration::KillWord);
    b"\x1B\x7F" "backward-kill-word" => Alter(Alteration::BackwardKillWord);
    b"\x17" "kill-region" => Alter(Alteration::KillRegion);
    b"\x1Bw" "copy-region-as-kill" => Move(Motion::CopyRegion);
    b"\x14" "transpose-chars" => Alter(Alteration::TransposeChars);
    b"\x1Bu" "upcase-word" => Alter(Alteration::UpcaseWord);
    b"\x1Bl" "downcase-word" => Alter(Alteration::DowncaseWord);
    b"\x1Bc" "capitalize-word" => Alter(Alteration::CapitalizeWord);
    b"\x18\x15" "upcase-region" => Alter(Alteration::UpcaseRegion);
    b"\x18\x0C" "downcase-region" => Alter(Alteration::DowncaseRegion);
    b"\x1B " "just-one-space" => Alter(Alteration::JustOneSpace);
    b"\x1B\\" "delete-horizontal-space" => Alter(Alteration::DeleteHorizontalSpace);
    b"\x18\x0F" "delete-blank-lines" => Alter(Alteration::DeleteBlankLines);
    b"\x1B^" "join-line" => Alter(Alteration::JoinLine);
    b"\x1Bq" "fill-paragraph" => Alter(Alteration::FillParagraph);
    b"\x00" "set-mark-command" => Move(Motion::SetMark);
    b"\x18\x18" "exchange-point-and-mark" => Move(Motion::ExchangePointAndMark);
    b"\x18h" "mark-whole-buffer" => Move(Motion::MarkWholeBuffer);
    b"\x19" "yank" => Insert(Insertion::Yank);
    b"\x1F" "undo" => UndoEdit;
    b"\x18u" "" => UndoEdit;
    b"\x1B~" "not-modified" => NotModified;
    b"\x18f" "set-fill-column" => Set(Setting::SetFillColumn);
    b"\x18b" "switch-to-buffer" => Ask(Question::SwitchTo);
    b"\x18\x06" "find-file" => Ask(Question::FindWhich);
    b"\x18k" "kill-buffer" => Ask(Question::KillWhich);
    b"\x1Bx" "" => Ask(Question::RunWhich);
    b"\x13" "isearch-forward" => Seek(Seeking::StartSearch(Direction::Forward));
    b"\x12" "isearch-backward" => Seek(Seeking::StartSearch(Direction::Backward));
    b"\x1Bs" "search-forward" => Ask(Question::SearchWhat(Direction::Forward));
    b"\x1Br" "search-backward" => Ask(Question::SearchWhat(Direction::Backward));
    b"\x1B%" "query-replace" => Ask(Question::ReplaceWhat);
    b"\x07" "keyboard-quit" => Set(Setting::KeyboardQuit);
    b"\x18(" "" => Set(Setting::StartMacro);
    b"\x18)" "" => Set(Setting::EndMacro);
    b"\x18e" "" => Set(Setting::CallMacro);
    b"\x180" "delete-window" => Rearrange(Arrangement::DeleteWindow);
    b"\x181" "delete-other-windows" => Rearrange(Arrangement::DeleteOtherWindows);
    b"\x182" "split-window-vertically" => Rearrange(Arrangement::SplitWindow);
    b"\x18o" "other-window" => Rearrange(Arrangement::NextWindow);
    b"\x18n" "next-window" => Rearrange(Arrangement::NextWindow);
    b"\x18p" "previous-window" => Rearrange(Arrangement::PreviousWindow);
    b"\x18^" "enlarge-window" => Rearrange(Arrangement::EnlargeWindow);
    b"\x18\x02" "list-buffers" => Rearrange(Arrangement::ListBuffers);
    b"\x18\x13" "save-buffer" => SaveBuffer;
    b"\x18\x03" "save-buffers-kill-emacs" => Exit;
    b"\x1B[A" "" => Move(Motion::PreviousLine);
    b"\x1B[B" "" => Move(Motion::NextLine);
    b"\x1B[C" "" => Move(Motion::ForwardChar);
    b"\x1B[D" "" => Move(Motion::BackwardChar);
};

static KEYLESS: &[Binding] = rows! {
    b"" "shrink-window" => Rearrange(Arrangement::ShrinkWindow);
    b"" "insert-buffer" => Ask(Question::InsertWhich);
    b"" "acl-list" => ListEntries;
    b"" "acl-insert" => Ask(Question::EntryToInsert);
    b"" "acl-delete" => Entries(EntryChange::DeleteEntry);
    b"" "acl-replace" => Ask(Question::EntryToReplace);
    b"" "set-owner" => Ask(Question::WhichOwner);
    b"" "set-group" => Ask(Question::WhichGroup);
};

/// The words of keys that run a command, with their names and commands: the rows by which keys are read. Beside them one
/// visible ASCII character, the space, TAB and each character past ASCII insert themselves.
pub fn bindings() -> &'static [Binding]
    ensures { rows_of result.now ≡ key_rows }
{
    BINDINGS
}

// The commands that no word of keys runs, with their names.
pub(crate) fn keyless() -> &'static [Binding]
    ensures { rows_of result.now ≡ keyless_rows }
{
    KEYLESS
}

// The last byte of a word that ends in this key.
fn last_byte(stroke: Stroke) -> u8
    ensures { result ≡ last_byte stroke }
{
    match stroke {
        Stroke::Plain(byte) => byte,
        Stroke::Meta(byte) => byte,
    }
}

// Whether this is the last of these bytes.
fn ends_in(keys: &[u8], byte: u8) -> bool
    ensures { result ≡ ends_in byte keys.now }
{
    match keys.last() {
        Some(last) => byte == *last,
        None => false,
    }
}

// Whether these bytes are those of the word. The last byte tells it from most of the other rows, so it is looked at first.
#[tactic(auto, using(crate::proofs::Rows::last_tells))]
fn spells(keys: &[u8], prefix: Prefix, stroke: Stroke) -> bool
    ensures { result ≡ same_name (word_of prefix stroke) keys.now }
{
    ends_in(keys, last_byte(stroke)) && is_word(keys, prefix, stroke)
}

// The same, without that look.
fn is_word(keys: &[u8], prefix: Prefix, stroke: Stroke) -> bool
    ensures { result ≡ same_name (word_of prefix stroke) keys.now }
{
    match (prefix, stroke) {
        (Prefix::Empty, Stroke::Plain(byte)) => [byte].as_slice() == keys,
        (Prefix::Empty, Stroke::Meta(byte)) => [ESCAPE, byte].as_slice() == keys,
        (Prefix::ControlX, Stroke::Plain(byte)) => [CONTROL_X, byte].as_slice() == keys,
        (Prefix::ControlX, Stroke::Meta(byte)) => [CONTROL_X, ESCAPE, byte].as_slice() == keys,
        (Prefix::Quote, Stroke::Plain(byte)) => [QUOTE, byte].as_slice() == keys,
        (Prefix::Quote, Stroke::Meta(byte)) => [QUOTE, ESCAPE, byte].as_slice() == keys,
        (Prefix::MetaBracket, Stroke::Plain(byte)) => [ESCAPE, BRACKET, byte].as_slice() == keys,
        (Prefix::MetaBracket, Stroke::Meta(byte)) => [ESCAPE, BRACKET, ESCAPE, byte].as_slice()
            == keys,
    }
}

// The command of a word in a table.
fn command_in(bindings: &[Binding], prefix: Prefix, stroke: Stroke) -> Option<Command>
    ensures { result ≡ option_map (λ (b : Binding). b.command) (find (λ (b : Binding). same_name (word_of prefix stroke) b.keys.now) bindings.now) }
{
    bindings
        .iter()
        .find(|binding| spells(binding.keys, prefix, stroke))
        .map(|binding| binding.command)
}

/// The command of a word of keys: a key after a prefix.
pub(crate) fn find_command(prefix: Prefix, stroke: Stroke) -> Option<Command>
    ensures { result ≡ command_of (word_of prefix stroke) }
{
    command_in(bindings(), prefix, stroke)
}
