// A buffer is gone: no window shows it or its access list, and there is no place in it.
ghost use Rattle.std.specs.Prelude.{◌≡◌, map, vec_capacity};
ghost use Rattle.mgs_windows.specs.Panes.{places_without_buffer, rows_without_buffer, shows_without_buffer, window_without_buffer, without_entries};

use crate::{RowPane, Window, WindowMarks};
use arrayvec::ArrayVec;
use mgs_model::Name;

/// What a window shows from now on.
fn shows_without_buffer(shows: Option<WindowMarks>, name: &Name) -> Option<WindowMarks>
    ensures { result ≡ shows_without_buffer name.now shows }
{
    match shows {
        Some(window_marks) => {
            if *name == window_marks.name {
                None
            } else {
                Some(window_marks)
            }
        }
        None => None,
    }
}

/// Rows without those of the buffer's access list.
fn without_entries(rows: RowPane, name: &Name) -> RowPane
    ensures { result ≡ without_entries name.now rows }
{
    match rows {
        RowPane::NoRows => RowPane::NoRows,
        RowPane::Buffers { row } => RowPane::Buffers { row },
        RowPane::Entries { name: other, row } => {
            if *name == other {
                RowPane::NoRows
            } else {
                RowPane::Entries { name: other, row }
            }
        }
    }
}

/// The rows of a window that showed this.
fn rows_without_buffer(shows: Option<WindowMarks>, rows: RowPane, name: &Name) -> RowPane
    ensures { result ≡ rows_without_buffer name.now shows rows }
{
    match shows {
        // They did not count, and would where the window shows the text no longer.
        Some(_) => RowPane::NoRows,
        None => without_entries(rows, name),
    }
}

/// What becomes of a window.
fn window_without_buffer(window: Window, name: &Name) -> Window
    ensures { result ≡ window_without_buffer name.now window }
{
    Window {
        height: window.height,
        shows: shows_without_buffer(window.shows, name),
        rows: rows_without_buffer(window.shows, window.rows, name),
    }
}

/// The windows that showed the buffer or its access list show nothing.
fn leave_slice(windows: &mut [Window], name: &Name)
    ensures { windows.new ≡ map (window_without_buffer name.now) windows.old }
{
    for window in windows.iter_mut() {
        *window = window_without_buffer(*window, name);
    }
}

/// The same in a list.
#[tactic(auto, using(crate::proofs::BufferGone::length_without_buffer))]
pub fn leave_windows(list: &mut ArrayVec<Window, 8>, name: &Name)
    ensures { list.new.items ≡ map (window_without_buffer name.now) list.old.items }
{
    leave_slice(list.as_mut_slice(), name);
}

/// The place in the buffer is taken out.
pub fn leave_places(places: &mut Vec<WindowMarks>, name: &Name)
    ensures places { places.new.items ≡ places_without_buffer name.now places.old.items }
    ensures capacity { vec_capacity places.new ≡ vec_capacity places.old }
{
    places.retain(|place| *name != place.name);
}
