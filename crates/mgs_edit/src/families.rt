// One planner for every command on a text.
ghost use Rattle.std.specs.Prelude.{◌≡◌, ◌<◌, ◌≤◌, ◌^◌, length, true};
ghost use Rattle.mgs_edit.specs.Planned.{IsPlan, is_planned};
ghost use Rattle.mgs_edit.specs.Reading.{IsWithin};

use crate::alterations::alteration;
use crate::insertions::{insertion, reading_insertion};
use crate::motions::motion;
use crate::plan::{Around, Change, Finish};
use crate::scrolls::scroll;
use mgs_model::{Command, Message};
use mgs_text::Text;

/// What a command comes to: what is taken out, what is put in, and where point, mark and kill buffer are then.
#[derive(Clone, Copy, PartialEq, Eq)]
pub enum Plan {
    /// An edit, and what it leaves.
    Edits(Change),
    /// No edit: what is left moves the point, the mark or the top, copies a piece, or tells something.
    Moves(Finish),
}

/// Why a command does nothing: what the echo line then tells.
pub type Failure = Message;

/// What a command does to a text, by its family: insertions, motions, alterations and scrolling. Undo goes by what was taken out, and
/// has `undo`.
///
/// A failure is the first that the command's description names.
pub fn plan_command<T: Text>(command: Command, text: &T, around: &Around) -> Result<Plan, Failure>
    requires planned { is_planned command ≡ true }
    requires place { around.now.place ≤ length (T.text text.now) }
    requires mark { IsWithin (length (T.text text.now)) around.now.mark }
    requires short { length (T.text text.now) < 2 ^ 32 }
    ensures { IsPlan command around.now (T.text text.now) result }
{
    match command {
        Command::Insert(put) => match insertion(text.len(), around, put) {
            Ok(change) => Ok(Plan::Edits(change)),
            Err(failure) => Err(failure),
        },
        Command::InsertReading(put) => Ok(Plan::Edits(reading_insertion(text, around, put))),
        Command::Alter(altered) => match alteration(text, around, altered) {
            Ok(change) => Ok(Plan::Edits(change)),
            Err(failure) => Err(failure),
        },
        Command::Move(to) => match motion(text, around, to) {
            Ok(finish) => Ok(Plan::Moves(finish)),
            Err(failure) => Err(failure),
        },
        Command::Scroll(by) => match scroll(text, around, by) {
            Ok(finish) => Ok(Plan::Moves(finish)),
            Err(failure) => Err(failure),
        },
        _ => unreachable!(),
    }
}
