// A buffer is killed.
ghost use Rattle.std.specs.Prelude.{◌≡◌, map, OnErr, OnOk};
ghost use Rattle.mgs_model.specs.Access.{decision};
ghost use Rattle.mgs_buffers.specs.MarkedBuffer.{HasBuffer, marked_at};
ghost use Rattle.mgs_buffers.specs.Permitting.{PermitAnswers};
ghost use Rattle.mgs_world.specs.Killing.{IsWithout, session_forgetting};
ghost use Rattle.mgs_world.specs.Sound.{IsSound};

use mgs_buffers::Buffers;
use mgs_marks::Marked;
use mgs_model::{Decision, Name};
use mgs_policy::Directory;
use mgs_session::{Session, forget_search};

/// No window of these sessions shows the buffer of this name or its access list any longer, and no place and no search is in it.
fn forget(sessions: &mut [Session], name: &Name)
    ensures { sessions.new ≡ map (session_forgetting name.now) sessions.old }
{
    for session in sessions.iter_mut() {
        session.windows.forget(name);
        forget_search(session, name);
    }
}

/// The buffer of this name is taken out, where DELETE is granted to the user: windows of all sessions that show it or its access list
/// show nothing, places in it go, and searches in it are over. Else the answer is what the buffer's access list decides, which is not
/// `Granted`, and all is as it was. It takes no memory.
#[tactic(auto, using(crate::proofs::Killed::sound_killed))]
pub fn kill_buffer<T: Marked + Drop>(
    buffers: &mut Buffers<T>,
    directory: &Directory,
    user: &Name,
    sessions: &mut [Session],
    name: &Name,
) -> Result<(), Decision>
    requires sound { IsSound buffers.old sessions.old }
    requires kept { HasBuffer name.now buffers.old }
    ensures sound { IsSound buffers.new sessions.new }
    ensures answer { let b = (marked_at name.now buffers.old).buffer in PermitAnswers result (decision directory.now b.owners user.now b.entries 65536) }
    ensures world { OnOk result (IsWithout name.now buffers.old sessions.old buffers.new sessions.new) }
    ensures err { OnErr result ((buffers.new ≡ buffers.old) × (sessions.new ≡ sessions.old)) }
{
    buffers.kill_as(directory, user, name)?;
    forget(sessions, name);
    Ok(())
}
