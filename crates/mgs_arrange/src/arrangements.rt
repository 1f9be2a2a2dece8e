// The windows of one of the sessions are arranged anew.
ghost use Rattle.std.specs.Prelude.{◌≡◌, ◌<◌, Option, List, [], None, length, OnOk, OnErr};
ghost use Rattle.mgs_model.specs.Access.{Directory};
ghost use Rattle.mgs_model.specs.Outcome.{Run};
ghost use Rattle.mgs_model.specs.declared.session.Command.TheVariants.{Rearrange};
ghost use Rattle.mgs_buffers.specs.MarkedBuffer.{MarkedBuffer};
ghost use Rattle.mgs_world.specs.Acted.{IsActedAt, IsRefusable, IsUnchanged};
ghost use Rattle.mgs_world.specs.Sound.{IsSessionSound, IsSound};
ghost use Rattle.mgs_world.specs.WindowMarks.{WindowMarksDropped};
ghost use Rattle.mgs_world.specs.Worlds.{idle, state_at, session_of};
ghost use Rattle.mgs_arrange.specs.Arranging.{IsArranged, IsDone, IsResized, MayBeRefused, Rearranged};

use crate::heights::{enlarge, select_next, select_previous, shrink};
use crate::lists::list_buffers;
use crate::removal::{delete, delete_others};
use crate::split::split;
use mgs_buffers::Buffers;
use mgs_marks::Marked;
use mgs_model::{Arrangement, Kind, Short};
use mgs_session::{Session, set_kind};

// The windows of a session are arranged anew.
fn rearrange_windows<T: Marked + Drop>(
    buffers: &mut Buffers<T>,
    session: &mut Session,
    arrangement: Arrangement,
    argument: Option<usize>,
) -> Result<(), Short>
    requires { IsSessionSound buffers.old session.old }
    ensures selected { session.old.windows.selected < length session.old.windows.windows }
    ensures rearranged { OnOk result (Rearranged buffers.old buffers.new session.old session.new) }
    ensures arranged { OnOk result (IsArranged arrangement argument buffers.old buffers.new session.old session.new) }
    ensures err { OnErr result (WindowMarksDropped None buffers.old buffers.new) }
    ensures same { OnErr result (IsResized session.old session.new) }
    ensures seen { OnErr result ((ks : List MarkedBuffer) → session_of ks session.new ≡ session_of ks session.old) }
    ensures may { OnErr result ((ks : List MarkedBuffer) → MayBeRefused arrangement argument (session_of ks session.old)) }
{
    prove!(session.windows.selected() < session.windows.as_slice().len());
    match arrangement {
        Arrangement::DeleteWindow => delete(buffers, session),
        Arrangement::DeleteOtherWindows => delete_others(buffers, session),
        Arrangement::SplitWindow => return split(buffers, session),
        Arrangement::NextWindow => select_next(session),
        Arrangement::PreviousWindow => select_previous(session),
        Arrangement::EnlargeWindow => enlarge(session, argument),
        Arrangement::ShrinkWindow => shrink(session, argument),
        Arrangement::ListBuffers => list_buffers(buffers, session),
    }
    Ok(())
}

// The windows of a session are arranged anew, as `rearrange` says.
fn rearrange_session<T: Marked + Drop>(
    buffers: &mut Buffers<T>,
    session: &mut Session,
    arrangement: Arrangement,
    argument: Option<usize>,
) -> Result<(), Short>
    requires { IsSessionSound buffers.old session.old }
    ensures selected { session.old.windows.selected < length session.old.windows.windows }
    ensures rearranged { OnOk result (Rearranged buffers.old buffers.new session.old session.new) }
    ensures done { OnOk result (IsDone arrangement argument buffers.old buffers.new session.old session.new) }
    ensures err { OnErr result (WindowMarksDropped None buffers.old buffers.new) }
    ensures same { OnErr result (IsResized session.old session.new) }
    ensures seen { OnErr result ((ks : List MarkedBuffer) → session_of ks session.new ≡ session_of ks session.old) }
    ensures may { OnErr result ((ks : List MarkedBuffer) → MayBeRefused arrangement argument (session_of ks session.old)) }
{
    rearrange_windows(buffers, session, arrangement, argument)?;
    set_kind(session, Kind::Other);
    Ok(())
}

/// Arranges the windows of the session at `at` anew, which has nothing half read and an empty echo line. An arrangement
/// that cannot be made tells so in the echo line. `Short`: memory was refused, which only a split may be, and the world is
/// as it was.
pub fn rearrange<T: Marked + Drop>(
    buffers: &mut Buffers<T>,
    sessions: &mut [Session],
    at: usize,
    arrangement: Arrangement,
    argument: Option<usize>,
) -> Result<(), Short>
    requires sound { IsSound buffers.old sessions.old }
    requires within { at < length sessions.old }
    requires fresh { state_at at sessions.old ≡ idle (state_at at sessions.old) }
    ensures sound { IsSound buffers.new sessions.new }
    ensures ok { OnOk result (IsActedAt at (Run (Rearrange arrangement) argument []) buffers.old sessions.old buffers.new sessions.new) }
    ensures err { OnErr result (IsUnchanged buffers.old sessions.old buffers.new sessions.new) }
    ensures may { OnErr result ((directory : Directory) → IsRefusable directory at (Run (Rearrange arrangement) argument []) buffers.old sessions.old) }
{
    rearrange_session(buffers, &mut sessions[at], arrangement, argument)
}
