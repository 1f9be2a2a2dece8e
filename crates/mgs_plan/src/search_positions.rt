// The positions of searches go by an edit.
ghost use Rattle.std.specs.Prelude.{◌≡◌, length};
ghost use Rattle.std.specs.List.{position_or_len};
ghost use Rattle.mgs_buffers.specs.MarkedBuffer.{HasBuffer, marked_at, marked_named};
ghost use Rattle.mgs_plan.specs.Actions.{CanDoIn};
ghost use Rattle.mgs_plan.specs.Following.{CanFollow, action_edit, edit_told, followed, if_edit};
ghost use Rattle.mgs_plan.specs.Inserting.{CanPut, insertion_of};

use crate::action::Action;
use mgs_buffers::Buffers;
use mgs_edit::put_len;
use mgs_marks::Marked;
use mgs_model::Name;
use mgs_session::{Edited, Session};
use mgs_world::follow_edit_in_all;

/// An edit, if it takes something out or puts something in.
pub fn if_edit(edit: Edited) -> Option<Edited>
    ensures { result ≡ if_edit edit }
{
    if edit.from < edit.to || edit.added > 0 {
        Some(edit)
    } else {
        None
    }
}

/// The edit that an action is in the buffer of a name, which stands at a place, by a session that has this kill buffer, if it is one.
pub fn edit_of<T: Marked + Drop>(
    buffers: &Buffers<T>,
    name: &Name,
    at: usize,
    kill: &[char],
    action: &Action,
) -> Option<Edited>
    requires kept { HasBuffer name.now buffers.now }
    requires place { at ≡ position_or_len (marked_named name.now) buffers.now }
    requires can { CanDoIn buffers.now name.now kill.now action.now }
    ensures value { result ≡ action_edit (marked_at name.now buffers.now).buffer.text (marked_at name.now buffers.now).buffer.items kill.now action.now }
    ensures can { CanFollow result }
{
    let size = buffers.text_len_at(name, at);
    match action {
        Action::Edits(_, change) => if_edit(Edited {
            size,
            from: change.from,
            to: change.to,
            added: put_len(&change.put, kill.len())?,
        }),
        Action::Undoes(undone) => if_edit(Edited {
            size,
            from: undone.from,
            to: undone.from + undone.gone,
            added: undone.len,
        }),
        Action::Fails(_) => None,
        Action::Moves(_) => None,
        Action::Clears => None,
    }
}

/// The edit that an insertion at a place is, if it is one.
pub fn edit_of_insertion<T: Marked + Drop>(
    buffers: &Buffers<T>,
    name: &Name,
    place: usize,
    put: &[char],
) -> Option<Edited>
    requires kept { HasBuffer name.now buffers.now }
    requires can { CanPut (marked_at name.now buffers.now).buffer put.now place }
    ensures value { result ≡ edit_told (length (marked_at name.now buffers.now).buffer.text) (insertion_of place put.now) }
    ensures can { CanFollow result }
{
    if_edit(Edited {
        size: buffers.text_len(name),
        from: place,
        to: place,
        added: put.len(),
    })
}

/// The positions of the searches of all sessions go by an edit of the buffer of this name, if there was one.
pub fn follow(sessions: &mut [Session], name: &Name, edit: &Option<Edited>)
    requires { CanFollow edit.now }
    ensures { sessions.new ≡ followed name.now edit.now sessions.old }
{
    match edit {
        None => {}
        Some(edit) => follow_edit_in_all(sessions, name, edit),
    }
}
