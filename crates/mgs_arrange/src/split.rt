// A window becomes two.
ghost use Rattle.std.specs.Prelude.{◌≡◌, ℕ, List, Option, None, IfOk, OnOk, OnErr};
ghost use Rattle.mgs_model.specs.declared.session.Arrangement.TheVariants.{SplitWindow};
ghost use Rattle.mgs_buffers.specs.MarkedBuffer.{MarkedBuffer};
ghost use Rattle.mgs_world.specs.Sound.{IsSessionSound, IsShownSound};
ghost use Rattle.mgs_world.specs.Worlds.{session_of};
ghost use Rattle.mgs_world.specs.WindowMarks.{WindowMarksDropped};
ghost use Rattle.mgs_arrange.specs.Arranging.{IsArranged, IsCopied, IsResized, MayBeSplit, Rearranged};

use crate::place_room::reserve;
use mgs_buffers::Buffers;
use mgs_marks::Marked;
use mgs_model::{Message, Notice, Short, WINDOW_LIMIT};
use mgs_session::{Session, break_off};
use mgs_windows::WindowMarks;
use mgs_world::add_window_marks;

// The same marks once more, for a window that shows the same. `Short`: memory was refused, and no mark was added.
fn copy_shown<T: Marked + Drop>(
    buffers: &mut Buffers<T>,
    shows: Option<WindowMarks>,
) -> Result<Option<WindowMarks>, Short>
    requires { IsShownSound buffers.old shows }
    ensures ok { IfOk result (λ o. IsCopied shows o buffers.old buffers.new) }
    ensures err { OnErr result (WindowMarksDropped None buffers.old buffers.new) }
{
    let Some(marks) = shows else {
        return Ok(None);
    };
    let point = buffers.pos(&marks.name, marks.point);
    let mark = match marks.mark {
        Some(mark) => Some(buffers.pos(&marks.name, mark)),
        None => None,
    };
    let top = buffers.pos(&marks.name, marks.top);
    Ok(Some(add_window_marks(buffers, &marks.name, point, mark, top)?))
}

/// The selected window becomes two, which show the same. `Short`: memory was refused, and the session is as it was.
pub fn split<T: Marked + Drop>(buffers: &mut Buffers<T>, session: &mut Session) -> Result<(), Short>
    requires { IsSessionSound buffers.old session.old }
    ensures rearranged { OnOk result (Rearranged buffers.old buffers.new session.old session.new) }
    ensures arranged { OnOk result ((n : Option ℕ) → IsArranged SplitWindow n buffers.old buffers.new session.old session.new) }
    ensures err { OnErr result (WindowMarksDropped None buffers.old buffers.new) }
    ensures same { OnErr result (IsResized session.old session.new) }
    ensures seen { OnErr result ((ks : List MarkedBuffer) → session_of ks session.new ≡ session_of ks session.old) }
    ensures may { OnErr result ((n : Option ℕ) (ks : List MarkedBuffer) → MayBeSplit n (session_of ks session.old)) }
{
    let window = session.windows.selected_window();
    if window.height < 3 {
        break_off(session, Message::Says(Notice::WindowTooSmall));
        return Ok(());
    }
    if session.windows.as_slice().len() >= WINDOW_LIMIT {
        break_off(session, Message::Says(Notice::TooManyWindows));
        return Ok(());
    }
    reserve(buffers.alloc(), &mut session.windows)?;
    let shows = copy_shown(buffers, window.shows)?;
    session.windows.split(shows);
    Ok(())
}
