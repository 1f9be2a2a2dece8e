// Undo: which edit is taken back, and what that comes to.
ghost use Rattle.std.specs.Prelude.{◌≡◌, ◌<◌, ◌≤◌, ◌+◌, ◌-◌, ◌^◌, length};
ghost use Rattle.mgs_model.specs.Plans as model;
ghost use Rattle.mgs_model.specs.Plans.{undo_target};
ghost use Rattle.mgs_undo.specs.Numbered.{item_of};
ghost use Rattle.mgs_edit.specs.Reading.{IsTakenBack, LeavesBehind, undoing};

use crate::plan::{Finish, Goes, STAYS, Undone};
use mgs_model::{Kind, Name};
use mgs_undo::Edit;

/// The serial of the edit that an undo in a buffer takes back: in a run of undos the edit before the last one undone, where
/// nobody edited the buffer since, and elsewhere the last edit. `serial` is the buffer's, and `kind` that of the session's
/// last command.
pub fn undo_target(kind: Kind, name: &Name, serial: u64) -> u64
    ensures { (rest : model.Around) → result ≡ undo_target (undoing kind name.now serial rest) }
{
    match kind {
        Kind::Undo {
            buffer,
            target,
            last,
        } => {
            if buffer == *name && last == serial {
                target.saturating_sub(1)
            } else {
                serial
            }
        }
        Kind::Other | Kind::Kill | Kind::Line { .. } => serial,
    }
}

/// What taking back an edit of the buffer comes to, which the buffer keeps under the serial `target`. `serial` is the
/// buffer's, and an edit more can be counted. `size` is how many characters the buffer has: the undo lies within them.
pub fn undo(edit: &Edit, name: &Name, target: u64, serial: u64, size: usize) -> Undone
    requires { serial < 2 ^ 64 - 1 }
    ensures plan { IsTakenBack name.now serial size (item_of target edit.now) result }
    ensures within { result.from + result.gone ≤ size }
    ensures serial { result.serial ≡ target }
    ensures len { result.len ≡ length edit.now.removed.items }
    ensures finish { LeavesBehind result.finish }
{
    let from = edit.undone_from(size);
    Undone {
        from,
        gone: edit.undone_to(size) - from,
        serial: target,
        len: edit.removed.len(),
        finish: Finish {
            point: Goes::Behind,
            kind: Kind::Undo {
                buffer: *name,
                target,
                last: serial + 1,
            },
            ..STAYS
        },
    }
}
