// The screen of a session, drawn into a grid that is there.
ghost use Rattle.std.specs.Prelude.{◌≡◌, ◌+◌, ◌<◌, ◌≤◌, ℕ, true, [], ◌∷◌, Option, None, IfSome};
ghost use Rattle.mgs_model.specs.Rows.{mode_row, buffer_mode};
ghost use Rattle.mgs_session.specs.declared.Session.{Session};
ghost use Rattle.mgs_world.specs.Worlds.{buffers_of};
ghost use Rattle.mgs_world.specs.Sound.{IsSessionSound, IsWindowSound};
ghost use Rattle.mgs_buffers.specs.Judging.{AreJudged, rules_kept};
ghost use Rattle.mgs_buffers.specs.MarkedBuffer.{HasBuffer, marked_at};
ghost use Rattle.mgs_buffers.specs.Permitting.{right_decision};
ghost use Rattle.mgs_grid.specs.Panes.{with_rows};
ghost use Rattle.mgs_grid.specs.RowSets.{has_row, AreIn, AreSameApart};
ghost use Rattle.mgs_model.specs.World.{may};
ghost use Rattle.mgs_model.specs.declared.right.Right.TheVariants.{ReadData};
ghost use Rattle.mgs_screen.specs.Canvas.{IsCell, IsDrawnOn, IsRoom};
ghost use Rattle.mgs_screen.specs.Screens.{AreMarksOf, IsScreenOf, ReadsAll, cursor_to, found_cursor, found_lines, heading_to, row_below, window_lines};
ghost use Rattle.mgs_screen.specs.TextsDrawn.{AreStanding, AreStandingAround, DoesShowMode, IsStopOf, mode_text, pushed, told_as};

use crate::change::stop_since;
use crate::drawn_texts::{DrawnText, DrawnTexts, ModeLine, Shown};
use crate::last_row::redraw_last_row;
use crate::list_rows::draw_rows;
use crate::measure::measure;
use crate::redraw::redraw_pane;
use crate::tab_stops::TabStop;
use crate::viewer::Viewer;
use mgs_buffers::{Buffers, Found};
use mgs_cache::Judge;
use mgs_grid::{Grid, RowSet};
use mgs_marks::Marked;
use mgs_model::{COLS_MAX, Decision, Mask, Name, ROWS_MAX, Right};
use mgs_policy::Directory;
use mgs_session::Session;
use mgs_text::Text;
use mgs_windows::{Window, WindowMarks};

/// A window on the screen: where its first row is, which of the windows it is, and whether it is the selected one.
#[derive(Clone, Copy)]
struct Place<'a> {
    window: &'a Window,
    first: usize,
    index: usize,
    selected: bool,
}

/// What was drawn of a screen so far.
#[derive(Drop)]
struct Redraw<'a> {
    /// The texts that it showed before.
    before: &'a DrawnTexts,
    /// Those that it shows now, from the top.
    texts: DrawnTexts,
    /// The rows that were drawn.
    rows: RowSet,
}

/// Whether the buffer is modified, where its attributes may be read.
fn heading<T: Marked + Drop>(
    found: &Found<T>,
    judge: &mut Judge,
    viewer: &Viewer<'_>,
) -> Option<bool>
    requires { AreJudged viewer.now.directory.now (rules_kept found.now.all) judge.old }
    ensures value { told_as found.now.name result ≡ heading_to viewer.now.directory.now viewer.now.user.now found.now.all found.now.name }
    ensures judged { AreJudged viewer.now.directory.now (rules_kept found.now.all) judge.new }
{
    if found.grants_by(judge, viewer.directory, viewer.user, Right::ReadAttributes) {
        Some(found.is_modified())
    } else {
        None
    }
}

/// A buffer's name and flag, where they may be told.
fn named(name: &Name, heading: Option<bool>) -> Option<(Name, bool)>
    ensures { result ≡ told_as name.now heading }
{
    match heading {
        Some(modified) => Some((*name, modified)),
        None => None,
    }
}

/// READ_DATA and READ_ATTRIBUTES.
const READS: u32 = 0x81;

/// Whether one walk over a list, of which a judge keeps nothing, tells that both a buffer's text and its attributes may be read.
fn reads_all<T: Marked + Drop>(found: &Found<T>, viewer: &Viewer<'_>) -> bool
    ensures { result ≡ true → ReadsAll viewer.now.directory.now viewer.now.user.now (marked_at found.now.name found.now.all).buffer }
{
    found.grants_outright(viewer.directory, viewer.user, Mask::from_bits(READS))
}

/// What may be seen of a buffer: whether it is modified, where its attributes may be read, and whether its text may be.
fn seen<T: Marked + Drop>(
    found: &Found<T>,
    judge: &mut Judge,
    viewer: &Viewer<'_>,
) -> (Option<bool>, bool)
    requires { AreJudged viewer.now.directory.now (rules_kept found.now.all) judge.old }
    ensures heading { told_as found.now.name result.0 ≡ heading_to viewer.now.directory.now viewer.now.user.now found.now.all found.now.name }
    ensures reads { result.1 ≡ may viewer.now.directory.now viewer.now.user.now ReadData (marked_at found.now.name found.now.all).buffer }
    ensures judged { AreJudged viewer.now.directory.now (rules_kept found.now.all) judge.new }
{
    if reads_all(found, viewer) {
        return (Some(found.is_modified()), true);
    }
    let heading = heading(found, judge, viewer);
    let reads = found.grants_by(judge, viewer.directory, viewer.user, Right::ReadData);
    (heading, reads)
}

/// The tab stop that is known of a text that was drawn earlier.
fn known_stop<T: Marked + Drop>(found: &Found<T>, earlier: &Option<Shown>) -> Option<TabStop>
    requires { HasBuffer found.now.name found.now.all }
    ensures { IsStopOf (buffers_of found.now.all) found.now.name earlier.now (marked_at found.now.name found.now.all).buffer.text result }
{
    match earlier {
        Some(earlier) => stop_since(found, earlier),
        None => None,
    }
}

/// Whether two mode lines are drawn from the same.
fn is_same_mode(a: &ModeLine, b: &ModeLine) -> bool
    ensures { result ≡ true → a.now ≡ b.now }
{
    a.line == b.line && a.column == b.column && a.heading == b.heading
}

/// Draws the mode line of a text that may be read, where it is not there already.
fn redraw_mode(
    name: &Name,
    mode: &ModeLine,
    earlier: &Option<Shown>,
    row: usize,
    rows: &mut RowSet,
    grid: &mut Grid,
)
    requires room { row < grid.old.rows }
    requires stands { IfSome earlier.now (λ e. DoesShowMode row name.now e.mode grid.old) }
    ensures grid { grid.new ≡ with_rows row (mode_row grid.old.cols (mode_text name.now mode.now) ∷ []) grid.old }
    ensures drawn { IsDrawnOn rows.old rows.new grid.old grid.new }
{
    prove!(grid.rows() <= ROWS_MAX);
    if let Some(earlier) = earlier {
        if is_same_mode(&earlier.mode, mode) {
            return;
        }
    }
    let place = Some((mode.line, mode.column));
    grid.draw_mode(row, named(name, mode.heading), place);
    rows.insert(row);
}

/// Draws a text that may be read, and its mode line. Tells where the cursor is, from the window's first cell, if the window is the
/// selected one.
fn redraw_text<T: Marked + Drop>(
    found: &Found<T>,
    heading: Option<bool>,
    window_marks: &WindowMarks,
    place: &Place<'_>,
    redraw: &mut Redraw<'_>,
    grid: &mut Grid,
) -> (usize, usize)
    requires marks { AreMarksOf found.now window_marks.now }
    requires room { IsRoom place.now.first place.now.window.now.height grid.old }
    requires stands { AreStandingAround place.now.first (buffers_of found.now.all) grid.old redraw.old.before.now redraw.old.texts }
    ensures lines { grid.new.lines ≡ found_lines place.now found.now heading window_marks.now grid.old }
    ensures cursor { place.now.selected ≡ true → result ≡ found_cursor place.now found.now window_marks.now grid.old.cols }
    ensures cell { IsCell place.now.window.now.height grid.old.cols result }
    ensures stands { AreStandingAround (row_below place.now) (buffers_of found.now.all) grid.new redraw.new.before.now redraw.new.texts }
    ensures drawn { IsDrawnOn redraw.old.rows redraw.new.rows grid.old grid.new }
{
    let cols = grid.cols();
    let height = place.window.height;
    let text = found.text();
    let name = found.name();
    let earlier = redraw.before.drawn(place.index, name, place.first, height);
    let known = known_stop(found, &earlier);
    let measures = measure(text, window_marks, place.selected, cols, known);
    let mode = ModeLine {
        heading,
        line: measures.line + 1,
        column: measures.column,
    };
    let shown = Shown {
        serial: found.serial(),
        size: text.len(),
        above: measures.above,
        start: measures.start,
        row: measures.row,
        shift: measures.shift,
        stop: measures.stop,
        mode,
    };
    let drawn = DrawnText {
        name: *name,
        first: place.first,
        height,
        shown,
    };
    redraw_pane(found, text, &drawn, &earlier, &mut redraw.rows, grid);
    redraw_mode(
        name,
        &mode,
        &earlier,
        place.first + height,
        &mut redraw.rows,
        grid,
    );
    redraw.texts.push(Some(drawn));
    (measures.row.min(height - 1), measures.col)
}

/// Why a buffer's text may not be read.
fn denial<T: Marked + Drop>(found: &Found<T>, judge: &mut Judge, viewer: &Viewer<'_>) -> Decision
    requires { AreJudged viewer.now.directory.now (rules_kept found.now.all) judge.old }
    ensures value { result ≡ right_decision viewer.now.directory.now (marked_at found.now.name found.now.all).buffer viewer.now.user.now ReadData }
    ensures judged { AreJudged viewer.now.directory.now (rules_kept found.now.all) judge.new }
{
    found.decide_by(judge, viewer.directory, viewer.user, Right::ReadData)
}

/// Draws the mode line of a text that may not be read: it tells no place in it.
fn draw_unread_mode(name: &Name, heading: Option<bool>, row: usize, grid: &mut Grid)
    requires { row < grid.old.rows }
    ensures { grid.new ≡ with_rows row (mode_row grid.old.cols (buffer_mode (told_as name.now heading) None) ∷ []) grid.old }
{
    grid.draw_mode(row, named(name, heading), None);
}

/// Notes that all rows of a window were drawn, and that it shows no text that is kept.
fn note_rows(first: usize, height: usize, texts: &mut DrawnTexts, rows: &mut RowSet)
    requires { first + height + 1 ≤ ROWS_MAX }
    ensures texts { texts.new ≡ pushed None texts.old }
    ensures kept { AreIn rows.old rows.new }
    ensures put { (i : ℕ) → first ≤ i → i < first + (height + 1) → has_row i rows.new ≡ true }
{
    rows.insert_rows(first, height + 1);
    texts.push(None);
}

/// Draws a window, in those rows alone that changed since it was drawn before. Tells where the cursor is, from the window's first cell, if
/// the window is the selected one.
fn redraw_window<T: Marked + Drop>(
    buffers: &Buffers<T>,
    judge: &mut Judge,
    viewer: &Viewer<'_>,
    place: &Place<'_>,
    redraw: &mut Redraw<'_>,
    grid: &mut Grid,
) -> (usize, usize)
    requires sound { IsWindowSound buffers.now place.now.window.now }
    requires room { IsRoom place.now.first place.now.window.now.height grid.old }
    requires judged { AreJudged viewer.now.directory.now (rules_kept buffers.now) judge.old }
    requires stands { AreStandingAround place.now.first (buffers_of buffers.now) grid.old redraw.old.before.now redraw.old.texts }
    ensures judged { AreJudged viewer.now.directory.now (rules_kept buffers.now) judge.new }
    ensures lines { grid.new.lines ≡ window_lines place.now viewer.now.directory.now viewer.now.user.now buffers.now grid.old }
    ensures cursor { place.now.selected ≡ true → result ≡ cursor_to place.now viewer.now.directory.now viewer.now.user.now buffers.now grid.old.cols }
    ensures cell { IsCell place.now.window.now.height grid.old.cols result }
    ensures stands { AreStandingAround (row_below place.now) (buffers_of buffers.now) grid.new redraw.new.before.now redraw.new.texts }
    ensures drawn { IsDrawnOn redraw.old.rows redraw.new.rows grid.old grid.new }
{
    prove!(grid.cols() <= COLS_MAX);
    let height = place.window.height;
    let Some(window_marks) = place.window.shows else {
        draw_rows(buffers, judge, viewer, place.window, place.first, grid);
        note_rows(place.first, height, &mut redraw.texts, &mut redraw.rows);
        return (0, 0);
    };
    let found = buffers.find(&window_marks.name);
    let (heading, reads) = seen(&found, judge, viewer);
    if reads {
        return redraw_text(&found, heading, &window_marks, place, redraw, grid);
    }
    let decision = denial(&found, judge, viewer);
    grid.draw_unread(place.first, height, decision);
    draw_unread_mode(found.name(), heading, place.first + height, grid);
    note_rows(place.first, height, &mut redraw.texts, &mut redraw.rows);
    (0, 0)
}

/// Draws a session's screen into a grid that shows an earlier screen of it, with these texts. It tells which rows it drew: the others are as they
/// were. With no text the grid may show anything before, and all rows are drawn. The texts are then those of the new screen. Who may see what is
/// decided by a judge that keeps what was decided on these buffers. Where memory is refused to it, the screen is drawn as well.
pub fn redraw_session<T: Marked + Drop>(
    buffers: &Buffers<T>,
    judge: &mut Judge,
    directory: &Directory,
    session: &Session,
    drawn_texts: &mut DrawnTexts,
    grid: &mut Grid,
) -> RowSet
    requires sound { IsSessionSound buffers.now session.now }
    requires rows { session.now.windows.rows ≡ grid.old.rows }
    requires cols { session.now.cols ≡ grid.old.cols }
    requires judged { AreJudged directory.now (rules_kept buffers.now) judge.old }
    requires stands { AreStanding (buffers_of buffers.now) grid.old drawn_texts.old }
    ensures judged { AreJudged directory.now (rules_kept buffers.now) judge.new }
    ensures grid { IsScreenOf directory.now buffers.now session.now grid.new }
    ensures stands { AreStanding (buffers_of buffers.now) grid.new drawn_texts.new }
    ensures apart { AreSameApart result grid.old.lines grid.new.lines }
{
    prove!(grid.rows() <= ROWS_MAX);
    let selected = session.windows.selected();
    let viewer = Viewer {
        directory,
        user: &session.user,
    };
    let mut redraw = Redraw {
        before: drawn_texts,
        texts: DrawnTexts::new(),
        rows: RowSet::none(),
    };
    let mut first = 0;
    let mut cursor = (0, 0);
    for (i, window) in session.windows.as_slice().iter().enumerate() {
        let place = Place {
            window,
            first,
            index: i,
            selected: i == selected,
        };
        let (row, col) = redraw_window(buffers, judge, &viewer, &place, &mut redraw, grid);
        if i == selected {
            cursor = (first + row, col);
        }
        first += window.height + 1;
    }
    redraw_last_row(&session.state, first, cursor, &mut redraw.rows, grid);
    let Redraw { texts, rows, .. } = redraw;
    *drawn_texts = texts;
    rows
}
