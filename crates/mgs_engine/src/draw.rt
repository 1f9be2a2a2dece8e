// The screens are drawn from a world, and painted where they changed.
ghost use Rattle.std.specs.Prelude.{◌≡◌, ◌<◌, map, not, All, false, IfOk, Some, length, vec_len, vec_capacity};
ghost use Rattle.mgs_world.specs.Worlds.{sizes, find_size, IsOfSize, IsUnique};
ghost use Rattle.mgs_core.specs.Calls.{differs_at};
ghost use Rattle.mgs_engine.specs.Queues.{IsTaken};
ghost use Rattle.mgs_grid.specs.RowSets.{AreSameApart};
ghost use Rattle.mgs_engine.specs.Screens.{IsSessionScreen, IsKnown, IsAhead, IsDrawn, IsReady, IsReadyApart, IsOnTime, IsRepaint, IsRedrawn, IsFirst, AreRedrawn, AreDrawnApart, texts_left, shown_size, queue_of};
ghost use Rattle.mgs_engine.specs.Slow.{falls_behind, is_past, same_picture};

use crate::grid_equality::same_grid;
use crate::session_screen::Screen;
use mgs_core::{Core, Size};
use mgs_grid::RowSet;
use mgs_marks::Marked;
use mgs_model::{QUEUE_LIMIT, ROWS_MAX, SessionId, Short, Touched};
use mgs_paint::bound;
use mgs_store::Store;
use std::alloc::Global;

// Draws what the terminal is to show next, and tells which rows it drew.
fn draw_next<T: Marked + Drop, S: Store + Drop>(
    core: &mut Core<T, S>,
    screen: &mut Screen,
) -> RowSet
    requires known { IsKnown (sizes core.old.world) screen.old }
    requires screen { IsSessionScreen screen.old }
    requires ready { IsReady core.old.world screen.old }
    ensures core { core.new ≡ core.old }
    ensures ahead { IsAhead core.old.world screen.old screen.new result }
{
    core.redraw(screen.id, &mut screen.drawn_texts, &mut screen.next)
}

// Forgets which texts are drawn, where an event can have changed any of them.
fn forget(screen: &mut Screen, touched: &Touched)
    ensures { screen.new ≡ record screen.old { drawn_texts = texts_left touched.now screen.old.drawn_texts } }
{
    match *touched {
        Touched::Anywhere => screen.drawn_texts.clear(),
        Touched::In(_) => {}
        Touched::Nowhere => {}
    }
}

// Draws what the terminal is to show after an event that touched this, and tells which rows it drew.
fn draw_again<T: Marked + Drop, S: Store + Drop>(
    core: &mut Core<T, S>,
    screen: &mut Screen,
    touched: &Touched,
) -> RowSet
    requires known { IsKnown (sizes core.old.world) screen.old }
    requires screen { IsSessionScreen screen.old }
    requires ready { IsReadyApart core.old.world touched.now screen.old }
    ensures core { core.new ≡ core.old }
    ensures ahead { IsAhead core.old.world screen.old screen.new result }
{
    forget(screen, touched);
    draw_next(core, screen)
}

// What was drawn is what the terminal shows. It differs in some of these rows from what that showed before.
fn show(screen: &mut Screen, rows: &RowSet)
    requires screen { IsSessionScreen screen.old }
    requires apart { AreSameApart rows.now screen.old.shown.lines screen.old.next.lines }
    ensures { screen.new ≡ record screen.old { shown = screen.old.next } }
{
    screen.shown.take_rows(&screen.next, rows);
}

// Paints the whole of what was drawn, whatever the terminal shows.
fn paint_whole(screen: &mut Screen, rows: &RowSet)
    requires screen { IsSessionScreen screen.old }
    requires taken { IsTaken (queue_of screen.old) }
    requires apart { AreSameApart rows.now screen.old.shown.lines screen.old.next.lines }
    ensures screen { IsSessionScreen screen.new }
    ensures size { shown_size screen.new ≡ shown_size screen.old }
    ensures shown { screen.new.shown ≡ screen.old.next }
    ensures next { screen.new.next ≡ screen.old.next }
    ensures texts { screen.new.drawn_texts ≡ screen.old.drawn_texts }
    ensures late { screen.new.late ≡ screen.old.late }
    ensures first { IsFirst screen.new }
{
    prove!(screen.next.rows() <= ROWS_MAX);
    screen.queue.first(&screen.next);
    show(screen, rows);
}

// Whether the paint of what was drawn may not have room in the queue.
fn is_past(screen: &Screen) -> bool
    ensures value { result ≡ is_past (length screen.now.queue) screen.now.next.rows screen.now.next.cols }
    ensures prompt { IsTaken (queue_of screen.now) → result ≡ false }
{
    QUEUE_LIMIT < screen.queue.len() + bound(screen.next.rows(), screen.next.cols())
}

// Paints what was drawn where it differs from what the terminal shows: in some of these rows.
fn paint_changed(screen: &mut Screen, rows: &RowSet)
    requires screen { IsSessionScreen screen.old }
    requires apart { AreSameApart rows.now screen.old.shown.lines screen.old.next.lines }
    requires room { is_past (length screen.old.queue) screen.old.next.rows screen.old.next.cols ≡ false }
    ensures screen { IsSessionScreen screen.new }
    ensures size { shown_size screen.new ≡ shown_size screen.old }
    ensures shown { screen.new.shown ≡ screen.old.next }
    ensures next { screen.new.next ≡ screen.old.next }
    ensures texts { screen.new.drawn_texts ≡ screen.old.drawn_texts }
    ensures late { screen.new.late ≡ screen.old.late }
    ensures repaint { IsRepaint screen.old screen.new }
{
    screen.queue.repaint(&screen.shown, &screen.next, rows);
    show(screen, rows);
}

// The screen is late, where what was drawn is not what the terminal shows.
fn mark_late(screen: &mut Screen)
    ensures { screen.new ≡ record screen.old { late = not (same_picture screen.old.shown screen.old.next) } }
{
    screen.late = !same_grid(&screen.shown, &screen.next);
}

// Paints what was drawn where it differs from what the terminal shows, in some of these rows. Where its paint may not have room, the
// screen is late instead.
fn paint_in_time(screen: &mut Screen, rows: &RowSet)
    requires screen { IsSessionScreen screen.old }
    requires apart { AreSameApart rows.now screen.old.shown.lines screen.old.next.lines }
    requires on_time { IsOnTime screen.old }
    ensures screen { IsSessionScreen screen.new }
    ensures size { shown_size screen.new ≡ shown_size screen.old }
    ensures late { screen.new.late ≡ falls_behind (length screen.old.queue) screen.old.shown screen.old.next }
    ensures shown { screen.new.late ≡ false → screen.new.shown ≡ screen.old.next }
    ensures next { screen.new.next ≡ screen.old.next }
    ensures texts { screen.new.drawn_texts ≡ screen.old.drawn_texts }
    ensures repaint { screen.new.late ≡ false → IsRepaint screen.old screen.new }
    ensures prompt { IsTaken (queue_of screen.old) → screen.new.late ≡ false }
{
    if is_past(screen) {
        mark_late(screen);
    } else {
        paint_changed(screen, rows);
    }
}

/// Draws the screen of a session for the first time: the bytes that wait then paint the whole of it, whatever the
/// terminal showed.
///
/// The world knows the session in the size of the screen, both grids are the same, and no bytes wait.
pub(crate) fn draw_first<T: Marked + Drop, S: Store + Drop>(
    core: &mut Core<T, S>,
    screen: &mut Screen,
)
    requires known { IsKnown (sizes core.old.world) screen.old }
    requires screen { IsSessionScreen screen.old }
    requires ready { IsReady core.old.world screen.old }
    requires taken { IsTaken (queue_of screen.old) }
    ensures screen { IsSessionScreen screen.new }
    ensures size { shown_size screen.new ≡ shown_size screen.old }
    ensures drawn { IsDrawn core.old.world screen.new }
    ensures late { screen.new.late ≡ screen.old.late }
    ensures first { IsFirst screen.new }
    ensures core { core.new ≡ core.old }
{
    let rows = draw_next(core, screen);
    paint_whole(screen, &rows);
}

// The screen of a session, drawn for the first time.
fn first_screen<T: Marked + Drop, S: Store + Drop>(
    alloc: Global,
    core: &mut Core<T, S>,
    size: Size,
) -> Result<Screen, Short>
    requires known { find_size size.id (sizes core.old.world) ≡ Some size }
    requires size { IsOfSize size }
    ensures screen { IfOk result IsSessionScreen }
    ensures size { IfOk result (λ x. shown_size x ≡ size) }
    ensures drawn { IfOk result (IsDrawn core.old.world) }
    ensures on_time { IfOk result IsOnTime }
    ensures first { IfOk result IsFirst }
    ensures core { core.new ≡ core.old }
{
    let mut screen = Screen::blank(alloc, size.rows, size.cols)?;
    screen.id = size.id;
    draw_first(core, &mut screen);
    Ok(screen)
}

/// The screens of all open sessions, in the order in which they opened, drawn for the first time. `Short`: memory was
/// refused.
pub(crate) fn first_screens<T: Marked + Drop, S: Store + Drop>(
    alloc: Global,
    core: &mut Core<T, S>,
) -> Result<Vec<Screen>, Short>
    ensures unique { IfOk result (λ xs. IsUnique (sizes core.old.world)) }
    ensures sizes { IfOk result (λ xs. map shown_size xs.items ≡ sizes core.old.world) }
    ensures each { IfOk result (λ xs. All IsSessionScreen xs.items) }
    ensures drawn { IfOk result (λ xs. All (IsDrawn core.old.world) xs.items) }
    ensures on_time { IfOk result (λ xs. All IsOnTime xs.items) }
    ensures first { IfOk result (λ xs. All IsFirst xs.items) }
    ensures core { core.new ≡ core.old }
{
    let mut screens = Vec::new(alloc);
    while let Some(size) = core.size(screens.len()) {
        let screen = first_screen(alloc, core, size)?;
        if screens.push(screen).is_err() {
            return Err(Short);
        }
    }
    Ok(screens)
}

// Draws a screen again, after an event that touched this, and paints it where it is not what the terminal shows: the bytes that do so
// wait then. Where they may not have room, the screen is late.
fn redraw<T: Marked + Drop, S: Store + Drop>(
    core: &mut Core<T, S>,
    screen: &mut Screen,
    touched: &Touched,
)
    requires known { IsKnown (sizes core.old.world) screen.old }
    requires screen { IsSessionScreen screen.old }
    requires ready { IsReadyApart core.old.world touched.now screen.old }
    requires on_time { IsOnTime screen.old }
    ensures screen { IsSessionScreen screen.new }
    ensures size { shown_size screen.new ≡ shown_size screen.old }
    ensures redrawn { IsRedrawn core.old.world screen.old screen.new }
    ensures core { core.new ≡ core.old }
{
    let rows = draw_again(core, screen, touched);
    paint_in_time(screen, &rows);
}

// Draws a screen again where an event that touched this can have changed it, by its place.
fn redraw_at<T: Marked + Drop, S: Store + Drop>(
    core: &mut Core<T, S>,
    screen: &mut Screen,
    at: usize,
    id: SessionId,
    touched: &Touched,
)
    requires known { IsKnown (sizes core.old.world) screen.old }
    requires screen { IsSessionScreen screen.old }
    requires ready { IsReadyApart core.old.world touched.now screen.old }
    requires on_time { IsOnTime screen.old }
    requires drawn { differs_at touched.now id at core.old.world ≡ false → IsDrawn core.old.world screen.old }
    ensures screen { IsSessionScreen screen.new }
    ensures size { shown_size screen.new ≡ shown_size screen.old }
    ensures redrawn { IsRedrawn core.old.world screen.old screen.new }
    ensures core { core.new ≡ core.old }
{
    if core.may_differ(at, id, touched) {
        redraw(core, screen, touched);
    }
}

fn redraw_each<T: Marked + Drop, S: Store + Drop>(
    core: &mut Core<T, S>,
    screens: &mut [Screen],
    id: SessionId,
    touched: &Touched,
)
    requires known { All (IsKnown (sizes core.old.world)) screens.old }
    requires each { All IsSessionScreen screens.old }
    requires ready { All (IsReadyApart core.old.world touched.now) screens.old }
    requires on_time { All IsOnTime screens.old }
    requires drawn { AreDrawnApart core.old.world touched.now id screens.old }
    ensures each { All IsSessionScreen screens.new }
    ensures sizes { map shown_size screens.new ≡ map shown_size screens.old }
    ensures redrawn { AreRedrawn core.old.world screens.old screens.new }
    ensures core { core.new ≡ core.old }
{
    for (at, screen) in screens.iter_mut().enumerate() {
        redraw_at(core, screen, at, id, touched);
    }
}

/// Draws the screens again that an event of the session `id` can have changed, by what it touched, and paints each that
/// is not what its terminal shows. A screen whose paint may not have room is late.
///
/// The screens are those of the open sessions, in their order, each in the size that the world knows, with both grids the same, and none
/// is late. Unless the event touched anything, the texts that are drawn in each are known. Those screens that the event cannot have
/// changed are what the world has for their sessions.
pub(crate) fn redraw_apart<T: Marked + Drop, S: Store + Drop>(
    core: &mut Core<T, S>,
    screens: &mut Vec<Screen>,
    id: SessionId,
    touched: &Touched,
)
    requires known { All (IsKnown (sizes core.old.world)) screens.old.items }
    requires each { All IsSessionScreen screens.old.items }
    requires ready { All (IsReadyApart core.old.world touched.now) screens.old.items }
    requires on_time { All IsOnTime screens.old.items }
    requires drawn { AreDrawnApart core.old.world touched.now id screens.old.items }
    ensures each { All IsSessionScreen screens.new.items }
    ensures sizes { map shown_size screens.new.items ≡ map shown_size screens.old.items }
    ensures redrawn { AreRedrawn core.old.world screens.old.items screens.new.items }
    ensures len { vec_len screens.new ≡ vec_len screens.old }
    ensures capacity { vec_capacity screens.new ≡ vec_capacity screens.old }
    ensures core { core.new ≡ core.old }
{
    redraw_each(core, screens, id, touched);
}
