// The positions of searches.
ghost use Rattle.std.specs.Prelude.{◌≡◌, ◌+◌, ◌<◌, ◌≤◌, ◌^◌, map};
ghost use Rattle.mgs_session.specs.Seeking.{session_edited};

use mgs_model::Name;
use mgs_session::{Edited, Session, follow_edit};

/// The positions of the searches of all sessions go by an edit of the buffer of this name.
pub fn follow_edit_in_all(sessions: &mut [Session], name: &Name, edit: &Edited)
    requires order { edit.now.from ≤ edit.now.to }
    requires fits { edit.now.size + edit.now.added < 2 ^ 64 }
    ensures { sessions.new ≡ map (session_edited name.now edit.now) sessions.old }
{
    for session in sessions.iter_mut() {
        follow_edit(session, name, edit);
    }
}
