//! The windows of one session: from the top of the screen down, each some rows of a pane and a mode line. And the places
//! where the session was in buffers that its windows left.
#![tactic(auto)]

mod left_places;
mod without_buffer;

ghost use Rattle.std.specs.Prelude.{◌≡◌, ◌≢◌, ◌-◌, ◌/◌, ◌+◌, ◌<◌, ◌≤◌, [], ◌∷◌, length, slice_get, vec_capacity, Some, ◌^◌};
ghost use Rattle.mgs_model.specs.Apply.{change_at};
ghost use Rattle.std.specs.Option.{option_map};
ghost use Rattle.mgs_windows.specs.Panes.{WindowList, IsWindowList, closer, given, grown, height_at, left_by, list_without_buffer, lower_half, mark_set, marked, one_shown, places_after, rows_set, showing, showing_rows, shown_in, shows_at, shrunk, single_window, split_at, window_removed, window_rows_shown, window_shown, window_split, windows_without};
ghost use Rattle.mgs_windows.specs.declared.RowPane.TheVariants.{NoRows};

use crate::left_places::put_place;
use crate::without_buffer::{leave_places, leave_windows};
use arrayvec::ArrayVec;
use mgs_model::{MarkId, Name};
use std::marker::Model;

/// A buffer in a window: the marks of the window's point, mark and top in the buffer's text.
#[derive(Clone, Copy)]
pub struct WindowMarks {
    /// The buffer.
    pub name: Name,
    /// The mark of the point.
    pub point: MarkId,
    /// The mark of the window's mark, where that is set.
    pub mark: Option<MarkId>,
    /// The mark of the top: where the text begins that is shown.
    pub top: MarkId,
}

/// What a window without a text shows.
#[derive(Clone, Copy, Default)]
pub enum RowPane {
    /// Nothing.
    #[default]
    NoRows,
    /// The list of all buffers.
    Buffers {
        /// The row that it begins at.
        row: usize,
    },
    /// The access list of a buffer.
    Entries {
        /// The buffer.
        name: Name,
        /// The row that it begins at.
        row: usize,
    },
}

/// A window: a pane and its mode line.
#[derive(Clone, Copy, Default)]
pub struct Window {
    /// How many rows the pane has.
    pub height: usize,
    /// The buffer whose text it shows.
    pub shows: Option<WindowMarks>,
    /// What it shows where it shows no text; where it does, this counts for nothing.
    pub rows: RowPane,
}

/// The windows of a session, of which one is selected, and the places where windows were. Panes and mode lines fill all
/// rows but the last. There is room for a place of each window, so that none takes memory when it goes.
#[derive(Drop)]
pub struct Windows {
    rows: usize,
    list: ArrayVec<Window, 8>,
    selected: usize,
    places: Vec<WindowMarks>,
}

impl Model for Windows {
    ghost use Rattle.std.specs.Prelude.{vec_capacity};
    ghost use Rattle.mgs_windows.specs.Panes.{WindowList, IsWindowList};

    ghost Value = { WindowList };

    ghost view = { λ w. record { rows = w.rows; windows = w.list.items; selected = w.selected; places = w.places.items; capacity = vec_capacity w.places } };

    ghost invariant = { λ w. IsWindowList (record { rows = w.rows; windows = w.list.items; selected = w.selected; places = w.places.items; capacity = vec_capacity w.places }) };
}

/// A list of one window.
fn one_window(height: usize, shows: Option<WindowMarks>) -> ArrayVec<Window, 8>
    ensures { result.items ≡ record { height = height; shows = shows; rows = NoRows } ∷ [] }
{
    // The prover hands on a window only where each type in it was named.
    let _mark: Option<MarkId> = None;
    let mut list = ArrayVec::new();
    list.push(Window {
        height,
        shows,
        rows: RowPane::NoRows,
    });
    list
}

/// The window at an index gets so many rows more.
fn grow(windows: &mut [Window], index: usize, rows: usize)
    requires within { index < length windows.old }
    requires most { height_at index windows.old + rows < 2 ^ 64 }
    ensures { windows.new ≡ change_at index (grown rows) windows.old }
{
    windows[index].height += rows;
}

/// The window at an index gets so many rows less.
fn shrink(windows: &mut [Window], index: usize, rows: usize)
    requires within { index < length windows.old }
    requires stays { rows ≤ height_at index windows.old }
    ensures { windows.new ≡ change_at index (shrunk rows) windows.old }
{
    windows[index].height -= rows;
}

/// What a window shows, with this mark.
fn with_mark(shows: Option<WindowMarks>, mark: MarkId) -> Option<WindowMarks>
    ensures { result ≡ option_map (mark_set mark) shows }
{
    match shows {
        Some(window_marks) => Some(WindowMarks {
            name: window_marks.name,
            point: window_marks.point,
            mark: Some(mark),
            top: window_marks.top,
        }),
        None => None,
    }
}

/// The window at an index gets a mark.
fn mark(windows: &mut [Window], index: usize, mark: MarkId)
    requires { index < length windows.old }
    ensures { windows.new ≡ change_at index (marked mark) windows.old }
{
    windows[index].shows = with_mark(windows[index].shows, mark);
}

/// The same in a list.
#[tactic(auto, using(crate::proofs::Heights::length_changed))]
fn mark_window(list: &mut ArrayVec<Window, 8>, index: usize, id: MarkId)
    requires { index < length list.old.items }
    ensures { list.new.items ≡ change_at index (marked id) list.old.items }
{
    mark(list.as_mut_slice(), index, id);
}

/// The window at an index shows this.
fn show(windows: &mut [Window], index: usize, window_marks: WindowMarks)
    requires { index < length windows.old }
    ensures { windows.new ≡ change_at index (showing window_marks) windows.old }
{
    windows[index].shows = Some(window_marks);
}

/// The same in a list.
#[tactic(auto, using(crate::proofs::Heights::length_changed))]
fn show_window(list: &mut ArrayVec<Window, 8>, index: usize, window_marks: WindowMarks)
    requires { index < length list.old.items }
    ensures { list.new.items ≡ change_at index (showing window_marks) list.old.items }
{
    show(list.as_mut_slice(), index, window_marks);
}

/// The window at an index shows these rows, and no text.
fn show_rows(windows: &mut [Window], index: usize, rows: RowPane)
    requires { index < length windows.old }
    ensures { windows.new ≡ change_at index (showing_rows rows) windows.old }
{
    windows[index] = Window {
        height: windows[index].height,
        shows: None,
        rows,
    };
}

/// The same in a list.
#[tactic(auto, using(crate::proofs::Heights::length_changed))]
fn show_rows_in_window(list: &mut ArrayVec<Window, 8>, index: usize, rows: RowPane)
    requires { index < length list.old.items }
    ensures { list.new.items ≡ change_at index (showing_rows rows) list.old.items }
{
    show_rows(list.as_mut_slice(), index, rows);
}

/// The window at an index gets these rows.
fn change_rows(windows: &mut [Window], index: usize, rows: RowPane)
    requires { index < length windows.old }
    ensures { windows.new ≡ change_at index (rows_set rows) windows.old }
{
    windows[index].rows = rows;
}

/// The same in a list.
#[tactic(auto, using(crate::proofs::Heights::length_changed))]
fn change_rows_of_window(list: &mut ArrayVec<Window, 8>, index: usize, rows: RowPane)
    requires { index < length list.old.items }
    ensures { list.new.items ≡ change_at index (rows_set rows) list.old.items }
{
    change_rows(list.as_mut_slice(), index, rows);
}

/// How many rows the window at an index has.
#[tactic(auto, using(crate::proofs::Heights::height_or))]
fn height_of(windows: &[Window], index: usize) -> usize
    requires { index < length windows.now }
    ensures { result ≡ height_at index windows.now }
{
    windows[index].height
}

/// What the window at an index shows.
#[tactic(auto, using(crate::proofs::Heights::shows_or))]
fn shows_of(windows: &[Window], index: usize) -> Option<WindowMarks>
    requires { index < length windows.now }
    ensures { result ≡ shows_at index windows.now }
{
    windows[index].shows
}

/// So many rows go from one window to another.
fn give_rows(list: &mut ArrayVec<Window, 8>, from: usize, to: usize, rows: usize)
    requires from { from < length list.old.items }
    requires to { to < length list.old.items }
    requires most { height_at to list.old.items + rows < 2 ^ 64 }
    requires stays { rows ≤ height_at from (change_at to (grown rows) list.old.items) }
    ensures { list.new.items ≡ given from to rows list.old.items }
{
    grow(list.as_mut_slice(), to, rows);
    shrink(list.as_mut_slice(), from, rows);
}

/// Takes out the window at an index, whose rows and mode line go to the heir.
fn remove_window(list: &mut ArrayVec<Window, 8>, index: usize, heir: usize)
    requires within { index < length list.old.items }
    requires heir { heir < length list.old.items }
    requires most { height_at heir list.old.items + (height_at index list.old.items + 1) < 2 ^ 64 }
    ensures { list.new.items ≡ windows_without index heir list.old.items }
{
    let rows = height_of(list.as_slice(), index) + 1;
    grow(list.as_mut_slice(), heir, rows);
    list.remove(index);
}

/// The window at an index keeps half of its rows.
#[tactic(auto, using(crate::proofs::Heights::length_changed))]
fn halve(list: &mut ArrayVec<Window, 8>, index: usize, rows: usize)
    requires within { index < length list.old.items }
    requires all { rows ≡ height_at index list.old.items }
    ensures list { list.new.items ≡ change_at index (shrunk (rows - rows / 2)) list.old.items }
    ensures len { length list.new.items ≡ length list.old.items }
{
    shrink(list.as_mut_slice(), index, rows - rows / 2);
}

/// The lower half of a window that becomes two, which has a mode line of its own.
fn lower_half(window: Window, shows: Option<WindowMarks>) -> Window
    requires { 1 ≤ window.height }
    ensures { result ≡ lower_half shows window }
{
    Window {
        height: window.height - 1 - window.height / 2,
        shows,
        rows: window.rows,
    }
}

/// The window at an index becomes two.
#[tactic(auto, using(crate::proofs::Heights::height_or, crate::proofs::Heights::split_so))]
fn split_window(list: &mut ArrayVec<Window, 8>, index: usize, shows: Option<WindowMarks>)
    requires within { index < length list.old.items }
    requires few { length list.old.items < 8 }
    requires high { 1 ≤ height_at index list.old.items }
    ensures { list.new.items ≡ split_at index shows list.old.items }
{
    let window = list[index];
    halve(list, index, window.height);
    list.insert(index + 1, lower_half(window, shows));
}

/// The index of the selected window, once the one at `index` is gone.
fn closer(index: usize, selected: usize) -> usize
    ensures { result ≡ closer index selected }
{
    if selected < index {
        selected
    } else {
        selected.saturating_sub(1)
    }
}

/// Puts the places into room that has none.
fn fill_room(room: &mut Vec<WindowMarks>, places: &[WindowMarks])
    requires none { room.old.items ≡ [] }
    requires most { length places.now ≤ vec_capacity room.old }
    ensures places { room.new.items ≡ places.now }
    ensures capacity { vec_capacity room.new ≡ vec_capacity room.old }
{
    for place in places {
        room.push_reserved(*place);
    }
}

/// Puts the place of a window that goes, and gives back the one before.
fn leave(places: &mut Vec<WindowMarks>, shows: Option<WindowMarks>) -> Option<WindowMarks>
    requires { length places.old.items + one_shown shows ≤ vec_capacity places.old }
    ensures places { places.new.items ≡ places_after shows places.old.items }
    ensures left { result ≡ left_by shows places.old.items }
    ensures capacity { vec_capacity places.new ≡ vec_capacity places.old }
{
    match shows {
        Some(window_marks) => put_place(places, window_marks),
        None => None,
    }
}

impl Windows {
    /// One window on a screen of so many rows. `places` is empty, and has room for one.
    pub fn one(rows: usize, shows: Option<WindowMarks>, places: Vec<WindowMarks>) -> Windows
        requires rows { 3 ≤ rows }
        requires none { places.items ≡ [] }
        requires room { 1 ≤ vec_capacity places }
        ensures { result ≡ single_window rows shows (vec_capacity places) }
    {
        let height = rows - 2;
        Windows {
            rows,
            list: one_window(height, shows),
            selected: 0,
            places,
        }
    }

    /// The rows of the screen.
    pub fn rows(&self) -> usize
        ensures value { result ≡ self.now.rows }
        ensures form { IsWindowList self.now }
    {
        self.rows
    }

    /// The windows, from the top down.
    pub fn as_slice(&self) -> &[Window]
        ensures value { result.now ≡ self.now.windows }
        ensures form { IsWindowList self.now }
    {
        self.list.as_slice()
    }

    /// The index of the selected window.
    pub fn selected(&self) -> usize
        ensures value { result ≡ self.now.selected }
        ensures within { result < length self.now.windows }
    {
        self.selected
    }

    /// The selected window.
    pub fn selected_window(&self) -> Window
        ensures { slice_get self.now.windows self.now.selected ≡ Some result }
    {
        self.list[self.selected]
    }

    /// How many rows the window at an index has.
    pub fn height(&self, index: usize) -> usize
        requires { index < length self.now.windows }
        ensures { result ≡ height_at index self.now.windows }
    {
        height_of(self.list.as_slice(), index)
    }

    /// The places of the session in buffers that its windows left, one in each.
    pub fn places(&self) -> &[WindowMarks]
        ensures value { result.now ≡ self.now.places }
        ensures form { IsWindowList self.now }
    {
        self.places.as_slice()
    }

    /// Selects the window at an index.
    pub fn select(&mut self, index: usize)
        requires { index < length self.old.windows }
        ensures { self.new ≡ record self.old { selected = index } }
    {
        self.selected = index;
    }

    /// The selected window has this mark from now on, where it shows a buffer. A mark that it had before is the caller's to
    /// give up. It takes no memory.
    pub fn set_mark(&mut self, id: MarkId)
        ensures { self.new ≡ record self.old { windows = change_at self.old.selected (marked id) self.old.windows } }
    {
        mark_window(&mut self.list, self.selected, id);
    }

    /// So many rows go from one window to another.
    pub fn give(&mut self, from: usize, to: usize, rows: usize)
        requires from { from < length self.old.windows }
        requires to { to < length self.old.windows }
        requires apart { from ≢ to }
        requires stays { rows < height_at from self.old.windows }
        ensures { self.new ≡ record self.old { windows = given from to rows self.old.windows } }
    {
        give_rows(&mut self.list, from, to, rows);
    }

    /// How many places there is room for.
    pub fn capacity(&self) -> usize
        ensures { result ≡ self.now.capacity }
    {
        self.places.capacity()
    }

    /// How many places there may be with one window more: those that there are, and one for each window.
    pub fn places_wanted(&self) -> usize
        ensures { length self.now.places + shown_in self.now.windows + 1 ≤ result }
    {
        self.places.len() + self.list.len() + 1
    }

    /// Puts the places into other room, in which there is none yet. It takes no memory; the room before is given back.
    pub fn take_room(&mut self, room: Vec<WindowMarks>)
        requires none { room.items ≡ [] }
        requires most { length self.old.places + shown_in self.old.windows ≤ vec_capacity room }
        ensures { self.new ≡ record self.old { capacity = vec_capacity room } }
    {
        let mut room = room;
        fill_room(&mut room, self.places.as_slice());
        self.places = room;
    }

    /// The selected window becomes two: the upper one has half of its rows and shows what it showed, the lower one has
    /// the other rows but one, which is the upper one's mode line, and shows this text, or the same rows.
    pub fn split(&mut self, shows: Option<WindowMarks>)
        requires high { 3 ≤ height_at self.old.selected self.old.windows }
        requires few { length self.old.windows < 8 }
        requires room { length self.old.places + shown_in self.old.windows + 1 ≤ self.old.capacity }
        ensures { self.new ≡ window_split shows self.old }
    {
        split_window(&mut self.list, self.selected, shows);
    }

    /// The selected window shows this from now on. Its marks are the session's place in the buffer that it showed. Gives back
    /// the place before, whose marks are to be given up. It takes no memory.
    pub fn show(&mut self, window_marks: WindowMarks) -> Option<WindowMarks>
        requires { length self.old.places + shown_in self.old.windows + 1 ≤ self.old.capacity }
        ensures list { self.new ≡ window_shown window_marks self.old }
        ensures left { result ≡ left_by (shows_at self.old.selected self.old.windows) self.old.places }
    {
        let shows = shows_of(self.list.as_slice(), self.selected);
        show_window(&mut self.list, self.selected, window_marks);
        leave(&mut self.places, shows)
    }

    /// The selected window shows these rows from now on, and no text. Its marks are the session's place in the buffer that it
    /// showed. Gives back the place before, whose marks are to be given up. It takes no memory.
    pub fn show_rows(&mut self, rows: RowPane) -> Option<WindowMarks>
        ensures list { self.new ≡ window_rows_shown rows self.old }
        ensures left { result ≡ left_by (shows_at self.old.selected self.old.windows) self.old.places }
    {
        let shows = shows_of(self.list.as_slice(), self.selected);
        show_rows_in_window(&mut self.list, self.selected, rows);
        leave(&mut self.places, shows)
    }

    /// The selected window has these rows from now on. They are not seen where it shows a text.
    pub fn set_rows(&mut self, rows: RowPane)
        ensures { self.new ≡ record self.old { windows = change_at self.old.selected (rows_set rows) self.old.windows } }
    {
        change_rows_of_window(&mut self.list, self.selected, rows);
    }

    /// The window at an index goes. Its rows and its mode line's go to the heir, and its marks are the session's place in
    /// the buffer that it showed. Gives back the place before, whose marks are to be given up.
    pub fn remove(&mut self, index: usize, heir: usize) -> Option<WindowMarks>
        requires within { index < length self.old.windows }
        requires heir { heir < length self.old.windows }
        requires apart { heir ≢ index }
        ensures list { self.new ≡ window_removed index heir self.old }
        ensures left { result ≡ left_by (shows_at index self.old.windows) self.old.places }
    {
        let shows = shows_of(self.list.as_slice(), index);
        remove_window(&mut self.list, index, heir);
        self.selected = closer(index, self.selected);
        leave(&mut self.places, shows)
    }

    /// The buffer of this name is gone: windows that show it or its access list show nothing from now on, and the place in it is taken out. Their
    /// marks go with the buffer. It takes no memory.
    pub fn forget(&mut self, name: &Name)
        ensures { self.new ≡ list_without_buffer name.now self.old }
    {
        leave_windows(&mut self.list, name);
        leave_places(&mut self.places, name);
    }
}
