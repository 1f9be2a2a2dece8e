// Scrolling: in a text by lines, in a listing or an access list by rows.
ghost use Rattle.std.specs.Prelude.{◌≡◌, ℕ, ◌≤◌, length, IfOk};
ghost use Rattle.mgs_model.specs.Plans as model;
ghost use Rattle.mgs_model.specs.Plans.{lines_scrolled, row_scrolled, scrolling};
ghost use Rattle.mgs_model.specs.declared.session.Scrolling.TheVariants.{ScrollUp, ScrollDown};
ghost use Rattle.mgs_edit.specs.Reading.{surrounded, FinishWithin, IsMotion};

use crate::around::goes;
use crate::plan::{Around, Finish};
use mgs_lines::{is_first_line, is_last_line, lines_down, lines_up};
use mgs_model::{Message, Notice, Scrolling};
use mgs_text::Text;

/// The greatest top row of a listing or an access list.
const LAST_ROW: usize = 512;

/// By how many lines a text is scrolled: two less than the window has, but at least one, or as the argument says.
fn lines(around: &Around) -> usize
    ensures { (size : ℕ) (rest : model.Around) → result ≡ lines_scrolled (surrounded around.now size rest) }
{
    match around.argument {
        Some(lines) => lines,
        None => around.height.saturating_sub(2).max(1),
    }
}

fn scroll_up<T: Text>(text: &T, around: &Around) -> Result<Finish, Message>
    requires { around.now.place ≤ length (T.text text.now) }
    ensures plan { IsMotion (scrolling ScrollUp) around.now (T.text text.now) result }
    ensures within { IfOk result (FinishWithin (length (T.text text.now)) (length (T.text text.now))) }
{
    let lines = lines(around);
    if is_last_line(text, around.place) && lines > 0 {
        return Err(Message::Says(Notice::EndOfBuffer));
    }
    Ok(goes(lines_down(text, around.place, lines)))
}

fn scroll_down<T: Text>(text: &T, around: &Around) -> Result<Finish, Message>
    requires { around.now.place ≤ length (T.text text.now) }
    ensures plan { IsMotion (scrolling ScrollDown) around.now (T.text text.now) result }
    ensures within { IfOk result (FinishWithin (length (T.text text.now)) (length (T.text text.now))) }
{
    let lines = lines(around);
    if is_first_line(text, around.place) && lines > 0 {
        return Err(Message::Says(Notice::BeginningOfBuffer));
    }
    Ok(goes(lines_up(text, around.place, lines)))
}

/// Where scrolling leads in a text. `EndOfBuffer`, `BeginningOfBuffer`: it is to go on in the last line, or back in the
/// first.
pub fn scroll<T: Text>(text: &T, around: &Around, command: Scrolling) -> Result<Finish, Message>
    requires { around.now.place ≤ length (T.text text.now) }
    ensures plan { IsMotion (scrolling command) around.now (T.text text.now) result }
    ensures within { IfOk result (FinishWithin (length (T.text text.now)) (length (T.text text.now))) }
{
    match command {
        Scrolling::ScrollUp => scroll_up(text, around),
        Scrolling::ScrollDown => scroll_down(text, around),
    }
}

/// The top row of a listing or an access list after it is scrolled in a window of so many rows: 0 to 512.
pub fn scrolled_row(row: usize, height: usize, command: Scrolling) -> usize
    ensures { result ≡ row_scrolled command row height }
{
    match command {
        Scrolling::ScrollUp if row > LAST_ROW || height > LAST_ROW - row => LAST_ROW,
        Scrolling::ScrollUp => row + height,
        Scrolling::ScrollDown => row.saturating_sub(height),
    }
}
