// The mark of the window that is selected. It is reserved first, which may want memory, and set then, so that an edit that
// may be refused can stand between.
ghost use Rattle.std.specs.Prelude.{◌≡◌, ◌≤◌, length, IfOk, OnErr, None};
ghost use Rattle.std.specs.List.{position_or_len};
ghost use Rattle.mgs_model.specs.Apply.{change_first};
ghost use Rattle.mgs_buffers.specs.MarkedBuffer.{HasBuffer, IsMark, marked_at, marked_named, marked_placed};
ghost use Rattle.mgs_world.specs.Marking.{IsGivenUp, IsReserved, session_marked};

use mgs_buffers::Buffers;
use mgs_marks::Marked;
use mgs_model::{MarkId, Short};
use mgs_session::Session;
use mgs_windows::WindowMarks;

/// The mark that a window has, or a new one in its buffer that is in no window yet. `Short`: memory was refused, and all is
/// as it was. A window that has a mark takes no memory.
pub fn reserve_mark<T: Marked + Drop>(
    buffers: &mut Buffers<T>,
    window_marks: &WindowMarks,
) -> Result<MarkId, Short>
    requires { HasBuffer window_marks.now.name buffers.old }
    ensures ok { IfOk result (λ id. IsReserved window_marks.now.name window_marks.now.mark id buffers.old buffers.new) }
    ensures err { OnErr result (buffers.new ≡ buffers.old) }
    ensures unmarked { OnErr result (window_marks.now.mark ≡ None) }
{
    match window_marks.mark {
        Some(mark) => Ok(mark),
        None => buffers.add_mark(&window_marks.name, 0),
    }
}

/// Gives up a mark that was reserved for a window and not set.
pub fn give_up_mark<T: Marked + Drop>(
    buffers: &mut Buffers<T>,
    window_marks: &WindowMarks,
    id: MarkId,
)
    requires kept { HasBuffer window_marks.now.name buffers.old }
    requires mark { IsMark window_marks.now.name id buffers.old }
    ensures { IsGivenUp window_marks.now.name window_marks.now.mark id buffers.old buffers.new }
{
    match window_marks.mark {
        Some(_) => {}
        None => buffers.drop_mark(&window_marks.name, id),
    }
}

/// The selected window has a mark that was reserved for it, at a position of its buffer, which stands at a place among all. It takes no
/// memory.
pub fn set_mark<T: Marked + Drop>(
    buffers: &mut Buffers<T>,
    session: &mut Session,
    window_marks: &WindowMarks,
    at: usize,
    id: MarkId,
    position: usize,
)
    requires kept { HasBuffer window_marks.now.name buffers.old }
    requires place { at ≡ position_or_len (marked_named window_marks.now.name) buffers.old }
    requires mark { IsMark window_marks.now.name id buffers.old }
    requires within { position ≤ length (marked_at window_marks.now.name buffers.old).buffer.text }
    ensures buffers { buffers.new ≡ change_first (marked_named window_marks.now.name) (marked_placed id position) buffers.old }
    ensures session { session.new ≡ session_marked id session.old }
{
    buffers.place_at(&window_marks.name, at, id, position);
    session.windows.set_mark(id);
}
