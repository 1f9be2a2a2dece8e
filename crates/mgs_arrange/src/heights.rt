// Windows are selected, and rows go from one to another.
ghost use Rattle.std.specs.Prelude.{◌≡◌, ◌≢◌, ◌<◌, ◌+◌, ℕ, List, Option, length};
ghost use Rattle.mgs_model.specs.Plans.{count_of, neighbor};
ghost use Rattle.mgs_model.specs.declared.session.Arrangement.TheVariants.{NextWindow, PreviousWindow, EnlargeWindow, ShrinkWindow};
ghost use Rattle.mgs_buffers.specs.MarkedBuffer.{MarkedBuffer};
ghost use Rattle.mgs_world.specs.Worlds.{session_of};
ghost use Rattle.mgs_arrange.specs.Arranged.{IsLeftOrTold, next_index, previous_index, rows_given_if};
ghost use Rattle.mgs_arrange.specs.Arranging.{IsArranged, IsResized};

use mgs_model::{Message, Notice};
use mgs_session::{Session, break_off};

// The index after this one, cyclic.
fn next_index(index: usize, count: usize) -> usize
    requires { index < count }
    ensures { result ≡ next_index index count }
{
    if index + 1 < count { index + 1 } else { 0 }
}

// The index before this one, cyclic.
fn previous_index(index: usize, count: usize) -> usize
    requires { index < count }
    ensures { result ≡ previous_index index count }
{
    if index == 0 { count - 1 } else { index - 1 }
}

/// The next window is selected.
pub fn select_next(session: &mut Session)
    ensures same { IsResized session.old session.new }
    ensures arranged { (n : Option ℕ) (ks : List MarkedBuffer) → IsArranged NextWindow n ks ks session.old session.new }
{
    let count = session.windows.as_slice().len();
    let index = next_index(session.windows.selected(), count);
    session.windows.select(index);
}

/// The window before is selected.
pub fn select_previous(session: &mut Session)
    ensures same { IsResized session.old session.new }
    ensures arranged { (n : Option ℕ) (ks : List MarkedBuffer) → IsArranged PreviousWindow n ks ks session.old session.new }
{
    let count = session.windows.as_slice().len();
    let index = previous_index(session.windows.selected(), count);
    session.windows.select(index);
}

// How many rows: the argument, or one.
fn count(argument: Option<usize>) -> usize
    ensures { result ≡ count_of argument }
{
    match argument {
        Some(rows) => rows,
        None => 1,
    }
}

// The window that gives rows and gets them: the one below, or above for the last.
fn neighbor(index: usize, count: usize) -> usize
    requires { index < count }
    ensures { result ≡ neighbor index count }
{
    if index + 1 < count {
        index + 1
    } else {
        index.saturating_sub(1)
    }
}

// So many rows go from one window to another, if one stays.
fn give(session: &mut Session, from: usize, to: usize, rows: usize)
    requires from { from < length session.old.windows.windows }
    requires to { to < length session.old.windows.windows }
    requires apart { from ≢ to }
    ensures same { IsResized session.old session.new }
    ensures given { (ks : List MarkedBuffer) → IsLeftOrTold (rows_given_if from to rows) (session_of ks session.old) (session_of ks session.new) }
{
    if session.windows.height(from) <= rows {
        break_off(session, Message::Says(Notice::ImpossibleChange));
        return;
    }
    session.windows.give(from, to, rows);
}

/// The selected window gets so many rows of its neighbor.
pub fn enlarge(session: &mut Session, argument: Option<usize>)
    ensures same { IsResized session.old session.new }
    ensures arranged { (ks : List MarkedBuffer) → IsArranged EnlargeWindow argument ks ks session.old session.new }
{
    let windows = session.windows.as_slice().len();
    if windows < 2 {
        break_off(session, Message::Says(Notice::OnlyOneWindow));
        return;
    }
    let selected = session.windows.selected();
    give(
        session,
        neighbor(selected, windows),
        selected,
        count(argument),
    );
}

/// The selected window gives so many rows to its neighbor.
pub fn shrink(session: &mut Session, argument: Option<usize>)
    ensures same { IsResized session.old session.new }
    ensures arranged { (ks : List MarkedBuffer) → IsArranged ShrinkWindow argument ks ks session.old session.new }
{
    let windows = session.windows.as_slice().len();
    if windows < 2 {
        break_off(session, Message::Says(Notice::OnlyOneWindow));
        return;
    }
    let selected = session.windows.selected();
    give(
        session,
        selected,
        neighbor(selected, windows),
        count(argument),
    );
}
