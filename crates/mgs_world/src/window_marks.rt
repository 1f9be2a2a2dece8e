// A session comes and goes: the marks of its windows.
ghost use Rattle.std.specs.Prelude.{◌≡◌, ◌+◌, ◌≤◌, ℕ, List, length, Some, None, IfOk, OnErr, IfSome};
ghost use Rattle.mgs_buffers.specs.MarkedBuffer.{HasBuffer, IsMark, MarkAdded, MarkDropped, marked_at};
ghost use Rattle.mgs_world.specs.WindowMarks.{MarkAddedBeside, MarksStay, WindowMarksAdded, WindowMarksDropped};
ghost use Rattle.mgs_world.specs.Worlds.{buffers_of};
ghost use Rattle.mgs_world.specs.Sound.{IsSessionSound, IsShownSound, in_use, place_uses, session_uses, sum_of, window_uses};

use mgs_buffers::Buffers;
use mgs_marks::Marked;
use mgs_model::{MarkId, Name, Short};
use mgs_session::Session;
use mgs_windows::{Window, WindowMarks};

/// A mark of a buffer, beside one that is there. `Short`: memory was refused, and that one is given up.
fn add_beside<T: Marked + Drop>(
    buffers: &mut Buffers<T>,
    name: &Name,
    first: MarkId,
    position: usize,
) -> Result<MarkId, Short>
    requires kept { HasBuffer name.now buffers.old }
    requires mark { IsMark name.now first buffers.old }
    requires within { position ≤ length (marked_at name.now buffers.old).buffer.text }
    ensures ok { IfOk result (λ id. MarkAdded name.now position id buffers.old buffers.new) }
    ensures err { OnErr result (MarkDropped name.now first buffers.old buffers.new) }
{
    match buffers.add_mark(name, position) {
        Ok(mark) => Ok(mark),
        Err(short) => {
            buffers.drop_mark(name, first);
            Err(short)
        }
    }
}

/// Marks for a window that comes to a buffer, without its mark, as `add_window_marks` says.
fn add_point_and_top<T: Marked + Drop>(
    buffers: &mut Buffers<T>,
    name: &Name,
    point: usize,
    top: usize,
) -> Result<WindowMarks, Short>
    requires kept { HasBuffer name.now buffers.old }
    requires point { point ≤ length (marked_at name.now buffers.old).buffer.text }
    requires top { top ≤ length (marked_at name.now buffers.old).buffer.text }
    ensures ok { IfOk result (λ x. WindowMarksAdded name.now point None top x buffers.old buffers.new) }
    ensures unmarked { IfOk result (λ x. x.mark ≡ None) }
    ensures err { OnErr result (WindowMarksDropped None buffers.old buffers.new) }
{
    let point = buffers.add_mark(name, point)?;
    let top = add_beside(buffers, name, point, top)?;
    Ok(WindowMarks {
        name: *name,
        point,
        mark: None,
        top,
    })
}

/// The mark of a window that has none, beside its point and top. `Short`: memory was refused, and those are given up.
fn add_mark_beside<T: Marked + Drop>(
    buffers: &mut Buffers<T>,
    window_marks: WindowMarks,
    mark: usize,
) -> Result<WindowMarks, Short>
    requires sound { IsShownSound buffers.old (Some window_marks) }
    requires unmarked { window_marks.mark ≡ None }
    requires within { mark ≤ length (marked_at window_marks.name buffers.old).buffer.text }
    ensures ok { IfOk result (λ x. MarkAddedBeside window_marks mark x buffers.old buffers.new) }
    ensures err { OnErr result (WindowMarksDropped (Some window_marks) buffers.old buffers.new) }
{
    match buffers.add_mark(&window_marks.name, mark) {
        Ok(id) => Ok(WindowMarks {
            name: window_marks.name,
            point: window_marks.point,
            mark: Some(id),
            top: window_marks.top,
        }),
        Err(short) => {
            drop_window_marks(buffers, Some(window_marks));
            Err(short)
        }
    }
}

/// Marks for a window that comes to a buffer: point, mark (where there is one) and top at these positions. `Short`: memory
/// was refused, and no mark was added.
pub fn add_window_marks<T: Marked + Drop>(
    buffers: &mut Buffers<T>,
    name: &Name,
    point: usize,
    mark: Option<usize>,
    top: usize,
) -> Result<WindowMarks, Short>
    requires kept { HasBuffer name.now buffers.old }
    requires point { point ≤ length (marked_at name.now buffers.old).buffer.text }
    requires mark { IfSome mark (λ m. m ≤ length (marked_at name.now buffers.old).buffer.text) }
    requires top { top ≤ length (marked_at name.now buffers.old).buffer.text }
    ensures ok { IfOk result (λ x. WindowMarksAdded name.now point mark top x buffers.old buffers.new) }
    ensures err { OnErr result (WindowMarksDropped None buffers.old buffers.new) }
{
    let window_marks = add_point_and_top(buffers, name, point, top)?;
    match mark {
        Some(mark) => add_mark_beside(buffers, window_marks, mark),
        None => Ok(window_marks),
    }
}

/// Gives up the marks of what a window shows, or of a place.
pub fn drop_window_marks<T: Marked + Drop>(buffers: &mut Buffers<T>, shows: Option<WindowMarks>)
    requires { IsShownSound buffers.old shows }
    ensures { WindowMarksDropped shows buffers.old buffers.new }
{
    let Some(window_marks) = shows else {
        return;
    };
    buffers.drop_mark(&window_marks.name, window_marks.point);
    buffers.drop_mark(&window_marks.name, window_marks.top);
    match window_marks.mark {
        Some(mark) => buffers.drop_mark(&window_marks.name, mark),
        None => {}
    }
}

/// Gives up the marks of these windows.
fn drop_windows<T: Marked + Drop>(buffers: &mut Buffers<T>, windows: &[Window])
    requires { (m : List ℕ) (i : ℕ) → sum_of (window_uses m i) windows.now ≤ in_use m i buffers.old }
    ensures uses { (m : List ℕ) (i : ℕ) → in_use m i buffers.old ≡ in_use m i buffers.new + sum_of (window_uses m i) windows.now }
    ensures buffers { buffers_of buffers.new ≡ buffers_of buffers.old }
    ensures stay { MarksStay buffers.old buffers.new }
{
    for window in windows {
        drop_window_marks(buffers, window.shows);
    }
}

/// Gives up the marks of these places.
fn drop_places<T: Marked + Drop>(buffers: &mut Buffers<T>, places: &[WindowMarks])
    requires { (m : List ℕ) (i : ℕ) → sum_of (place_uses m i) places.now ≤ in_use m i buffers.old }
    ensures uses { (m : List ℕ) (i : ℕ) → in_use m i buffers.old ≡ in_use m i buffers.new + sum_of (place_uses m i) places.now }
    ensures buffers { buffers_of buffers.new ≡ buffers_of buffers.old }
    ensures stay { MarksStay buffers.old buffers.new }
{
    for place in places {
        drop_window_marks(buffers, Some(*place));
    }
}

/// Gives up the marks of a session.
pub fn drop_session_marks<T: Marked + Drop>(buffers: &mut Buffers<T>, session: &Session)
    requires { IsSessionSound buffers.old session.now }
    ensures uses { (m : List ℕ) (i : ℕ) → in_use m i buffers.old ≡ in_use m i buffers.new + session_uses m i session.now }
    ensures buffers { buffers_of buffers.new ≡ buffers_of buffers.old }
    ensures stay { MarksStay buffers.old buffers.new }
{
    drop_windows(buffers, session.windows.as_slice());
    drop_places(buffers, session.windows.places());
}
