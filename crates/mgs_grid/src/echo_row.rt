// The texts of the echo line: what came of a command.
ghost use Rattle.std.specs.Prelude.{◌≡◌, ◌+◌, ◌<◌, ◌≤◌, ◌^◌, ◌++◌, codes};
ghost use Rattle.mgs_model.specs.Rights.{right_name};
ghost use Rattle.mgs_model.specs.Messages.{denial_text, fault_name, message_text, position_text};
ghost use Rattle.mgs_grid.specs.Cells.{Wrote};

use crate::cells::{put_bytes, put_decimal, put_name};
use mgs_model::{CursorPosition, Decision, EntryFault, Message, Right};

#[tactic(auto, using(crate::proofs::Plain::right_plain, crate::proofs::Plain::right_short))]
fn put_right(row: &mut [char], column: usize, right: Right) -> usize
    requires { column < 2 ^ 62 }
    ensures wrote { Wrote row.old column (right_name right) row.new result }
    ensures few { result ≤ column + 16 }
{
    put_bytes(row, column, right.name().as_bytes())
}

// Why a command was refused.
fn put_denial(row: &mut [char], decision: Decision) -> usize
    ensures wrote { Wrote row.old 0 (denial_text decision) row.new result }
    ensures few { result ≤ 128 }
{
    match decision {
        Decision::Granted => 0,
        Decision::DeniedBy { entry, bit } => {
            let at_entry = put_bytes(row, 0, b"Denied: entry ");
            let at_verb = put_decimal(row, at_entry, entry);
            let at_right = put_bytes(row, at_verb, b" denies ");
            put_right(row, at_right, bit)
        }
        Decision::NotGranted { bit } => {
            let at = put_bytes(row, 0, b"Denied: no entry grants ");
            put_right(row, at, bit)
        }
    }
}

// Why a text is no entry.
fn put_fault(row: &mut [char], fault: EntryFault) -> usize
    ensures wrote { Wrote row.old 0 (codes "Bad entry: " ++ fault_name fault) row.new result }
    ensures few { result ≤ 32 }
{
    let at = put_bytes(row, 0, b"Bad entry: ");
    match fault {
        EntryFault::Kind => put_bytes(row, at, b"Kind"),
        EntryFault::Who => put_bytes(row, at, b"Who"),
        EntryFault::Letters => put_bytes(row, at, b"Letters"),
        EntryFault::Trailing => put_bytes(row, at, b"Trailing"),
    }
}

// Where a point stands in its text.
fn put_position(row: &mut [char], column: usize, at: &CursorPosition) -> usize
    requires { column < 2 ^ 60 }
    ensures wrote { Wrote row.old column (position_text at.now) row.new result }
    ensures few { result ≤ column + 105 }
{
    let at_point = put_bytes(row, column, b" point ");
    let at_of = put_decimal(row, at_point, at.point);
    let at_size = put_bytes(row, at_of, b" of ");
    let at_line_word = put_decimal(row, at_size, at.size);
    let at_line = put_bytes(row, at_line_word, b" line ");
    let at_column_word = put_decimal(row, at_line, at.line);
    let at_column = put_bytes(row, at_column_word, b" column ");
    put_decimal(row, at_column, at.column)
}

/// Writes an echo text from column 0 on, and tells the column after it, at most 160.
#[tactic(auto, using(crate::proofs::Notices::notice_plain, crate::proofs::Notices::notice_short))]
pub(crate) fn put_message(row: &mut [char], message: &Message) -> usize
    ensures wrote { Wrote row.old 0 (message_text message.now) row.new result }
    ensures few { result ≤ 160 }
{
    match *message {
        Message::Says(notice) => put_bytes(row, 0, notice.text()),
        Message::Denied(decision) => put_denial(row, decision),
        Message::CharacterAt(character, at) => {
            let at_code = put_bytes(row, 0, b"char ");
            let end = put_decimal(row, at_code, character as usize);
            put_position(row, end, &at)
        }
        Message::EndAt(at) => {
            let end = put_bytes(row, 0, b"end");
            put_position(row, end, &at)
        }
        Message::BadEntry(fault) => put_fault(row, fault),
        Message::Wrote(name) => {
            let at = put_bytes(row, 0, b"Wrote ");
            put_name(row, at, &name)
        }
        Message::Replaced(count) => {
            let at = put_bytes(row, 0, b"Replaced ");
            put_decimal(row, at, count)
        }
    }
}
