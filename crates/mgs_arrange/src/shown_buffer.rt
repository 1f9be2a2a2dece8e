// A window comes to show a buffer.
ghost use Rattle.std.specs.Prelude.{◌≡◌, ◌<◌, List, Option, None, Some, find, length, slice_get, IfOk, IfSome, OnOk, OnErr};
ghost use Rattle.mgs_buffers.specs.MarkedBuffer.{HasBuffer, MarkedBuffer};
ghost use Rattle.mgs_windows.specs.Panes.{is_place_in};
ghost use Rattle.mgs_world.specs.Acted.{IsLeftAt, IsUnchanged};
ghost use Rattle.mgs_world.specs.Sound.{IsSessionSound, IsShownSound, IsSound};
ghost use Rattle.mgs_world.specs.WindowMarks.{WindowMarksDropped};
ghost use Rattle.mgs_world.specs.Worlds.{session_of};
ghost use Rattle.mgs_arrange.specs.Arranged.{run_ended};
ghost use Rattle.mgs_arrange.specs.Arranging.{IsResized, Rearranged};
ghost use Rattle.mgs_arrange.specs.Showing.{StandingAdded, is_shown, shown_in, standing, window_shows};

use crate::place_room::reserve;
use mgs_buffers::Buffers;
use mgs_marks::Marked;
use mgs_model::{Kind, Name, Short};
use mgs_session::{Session, set_kind};
use mgs_windows::{WindowMarks, Windows};
use mgs_world::{add_window_marks, drop_window_marks};

// The place in the buffer of this name.
fn place_in(places: &[WindowMarks], name: &Name) -> Option<WindowMarks>
    ensures { result ≡ find (is_place_in name.now) places.now }
{
    for place in places {
        if *name == place.name {
            return Some(*place);
        }
    }
    None
}

// Whether what a window shows is the buffer of this name.
fn is_shown(shows: &Option<WindowMarks>, name: &Name) -> bool
    ensures { result ≡ is_shown name.now shows.now }
{
    match shows {
        Some(window_marks) => *name == window_marks.name,
        None => false,
    }
}

// Where the session stands in the buffer of this name, to which its selected window is to come.
fn standing(windows: &Windows, name: &Name) -> Option<WindowMarks>
    ensures { result ≡ standing name.now windows.now }
{
    let shows = windows.selected_window().shows;
    if is_shown(&shows, name) {
        return shows;
    }
    place_in(windows.places(), name)
}

// Marks for a window that comes to a buffer in which the session stood there, or at the start of its text. `Short`: memory
// was refused, and no mark was added.
fn add_standing<T: Marked + Drop>(
    buffers: &mut Buffers<T>,
    name: &Name,
    stood: Option<WindowMarks>,
) -> Result<WindowMarks, Short>
    requires kept { HasBuffer name.now buffers.old }
    requires sound { IsShownSound buffers.old stood }
    requires named { IfSome stood (λ x. x.name ≡ name.now) }
    ensures ok { IfOk result (λ x. StandingAdded name.now stood x buffers.old buffers.new) }
    ensures err { OnErr result (WindowMarksDropped None buffers.old buffers.new) }
{
    let Some(window_marks) = stood else {
        return add_window_marks(buffers, name, 0, None, 0);
    };
    let point = buffers.pos(&window_marks.name, window_marks.point);
    let mark = match window_marks.mark {
        Some(mark) => Some(buffers.pos(&window_marks.name, mark)),
        None => None,
    };
    add_window_marks(buffers, &window_marks.name, point, mark, 0)
}

// The selected window of a session comes to show the buffer of this name, as `show` says.
fn show_in_session<T: Marked + Drop>(
    buffers: &mut Buffers<T>,
    session: &mut Session,
    name: &Name,
) -> Result<(), Short>
    requires sound { IsSessionSound buffers.old session.old }
    requires kept { HasBuffer name.now buffers.old }
    ensures selected { session.old.windows.selected < length session.old.windows.windows }
    ensures rearranged { OnOk result (Rearranged buffers.old buffers.new session.old session.new) }
    ensures shown { OnOk result (session_of buffers.new session.new ≡ run_ended (window_shows name.now (session_of buffers.old session.old))) }
    ensures err { OnErr result (WindowMarksDropped None buffers.old buffers.new) }
    ensures same { OnErr result (IsResized session.old session.new) }
    ensures seen { OnErr result ((ks : List MarkedBuffer) → session_of ks session.new ≡ session_of ks session.old) }
{
    prove!(session.windows.selected() < session.windows.as_slice().len());
    let stood = standing(&session.windows, name);
    reserve(buffers.alloc(), &mut session.windows)?;
    let window_marks = add_standing(buffers, name, stood)?;
    let before = session.windows.show(window_marks);
    drop_window_marks(buffers, before);
    set_kind(session, Kind::Other);
    Ok(())
}

/// The selected window of the session at `at` comes to show the buffer of this name, where the session stood there last: at
/// the point and the mark of that window or of the one that left the buffer last, or at the start. What the window showed
/// gets its place. `Short`: memory was refused, and the world is as it was, with the same marks in use.
pub fn show<T: Marked + Drop>(
    buffers: &mut Buffers<T>,
    sessions: &mut [Session],
    at: usize,
    name: &Name,
) -> Result<(), Short>
    requires sound { IsSound buffers.old sessions.old }
    requires within { at < length sessions.old }
    requires kept { HasBuffer name.now buffers.old }
    ensures selected { IfSome (slice_get sessions.old at) (λ x. x.windows.selected < length x.windows.windows) }
    ensures sound { IsSound buffers.new sessions.new }
    ensures ok { OnOk result (IsLeftAt at (λ id. shown_in id name.now) buffers.old sessions.old buffers.new sessions.new) }
    ensures err { OnErr result (IsUnchanged buffers.old sessions.old buffers.new sessions.new) }
    ensures unmarked { OnErr result (WindowMarksDropped None buffers.old buffers.new) }
{
    show_in_session(buffers, &mut sessions[at], name)
}
