// What a command on a text comes to in a window that shows none: the rows of a list are scrolled, and nothing else is done.
ghost use Rattle.std.specs.Prelude.{◌≡◌, List, None, slice_get};
ghost use Rattle.mgs_model.specs.Access.{Directory};
ghost use Rattle.mgs_session.specs.Sessions.{window_marks_of};
ghost use Rattle.mgs_buffers.specs.MarkedBuffer.{MarkedBuffer};
ghost use Rattle.mgs_plan.specs.Deciding.{CanPerform, IsUnshown};
ghost use Rattle.mgs_plan.specs.Rows.{pane_scrolled, rows_scrolled, scroll_in};

use crate::outcome::Outcome;
use mgs_edit::scrolled_row;
use mgs_model::{Command, Message, Notice, Scrolling};
use mgs_session::Session;
use mgs_windows::RowPane;

/// The rows of a window, scrolled. `None` where it has none.
fn pane_scrolled(scrolling: Scrolling, height: usize, rows: RowPane) -> Option<RowPane>
    ensures { result ≡ pane_scrolled scrolling height rows }
{
    match rows {
        RowPane::NoRows => None,
        RowPane::Buffers { row } => Some(RowPane::Buffers {
            row: scrolled_row(row, height, scrolling),
        }),
        RowPane::Entries { name, row } => Some(RowPane::Entries {
            name,
            row: scrolled_row(row, height, scrolling),
        }),
    }
}

/// What a command scrolls, if it does.
fn scroll_in(command: Command) -> Option<Scrolling>
    ensures { result ≡ scroll_in command }
{
    match command {
        Command::Scroll(scrolling) => Some(scrolling),
        _ => None,
    }
}

/// The rows of the selected window, once they are scrolled.
fn rows_scrolled(session: &Session, scrolling: Option<Scrolling>) -> Option<RowPane>
    ensures { result ≡ rows_scrolled scrolling (slice_get session.now.windows.windows session.now.windows.selected) }
{
    let window = session.windows.selected_window();
    match scrolling {
        Some(scrolling) => pane_scrolled(scrolling, window.height, window.rows),
        None => None,
    }
}

/// What a command on a text comes to for a session whose selected window shows none.
pub(crate) fn plan_rows(session: &Session, command: Command) -> Outcome
    ensures value { IsUnshown session.now (scroll_in command) result }
    ensures can { (directory : Directory) (ks : List MarkedBuffer) → window_marks_of session.now ≡ None → CanPerform directory ks session.now result }
{
    match rows_scrolled(session, scroll_in(command)) {
        Some(rows) => Outcome::Scrolls(rows),
        None => Outcome::Fails(Message::Says(Notice::NoBuffer)),
    }
}
