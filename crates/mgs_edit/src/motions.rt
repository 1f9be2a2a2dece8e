// Motions, which edit nothing.
ghost use Rattle.std.specs.Prelude.{◌≡◌, ◌≤◌, ◌<◌, ◌^◌, length, IfOk, Ok};
ghost use Rattle.mgs_model.specs.Lines.{column};
ghost use Rattle.mgs_model.specs.Plans.{goal_in, lined, motion};
ghost use Rattle.mgs_model.specs.declared.session.Motion.TheVariants.{ForwardChar, BackwardChar, GoToLine, NextLine, PreviousLine, ForwardWord, BackwardWord, ForwardParagraph, BackwardParagraph, Recenter, WhatCursorPosition, ExchangePointAndMark, CopyRegion};
ghost use Rattle.mgs_edit.specs.Reading.{FinishWithin, IsWithin, IsMotion};

use crate::around::{goes, is_at_end, is_at_start, joins_behind, times};
use crate::plan::{Around, Finish, Piece, STAYS};
use mgs_lines::{
    backward_paragraph, backward_word, column, column_place, forward_paragraph, forward_word,
    is_first_line, is_last_line, line_end, line_start, lines_down, lines_up,
};
use mgs_model::{CursorPosition, Kind, Message, Motion, Notice};
use mgs_text::Text;

fn forward_char<T: Text>(text: &T, around: &Around) -> Result<Finish, Message>
    requires { around.now.place ≤ length (T.text text.now) }
    ensures plan { IsMotion (motion ForwardChar) around.now (T.text text.now) result }
    ensures within { IfOk result (FinishWithin (length (T.text text.now)) (length (T.text text.now))) }
{
    let size = text.len();
    if is_at_end(around, size) {
        return Err(Message::Says(Notice::EndOfBuffer));
    }
    let times = times(around);
    if times > size - around.place {
        return Ok(goes(size));
    }
    Ok(goes(around.place + times))
}

fn backward_char<T: Text>(text: &T, around: &Around) -> Result<Finish, Message>
    requires { around.now.place ≤ length (T.text text.now) }
    ensures plan { IsMotion (motion BackwardChar) around.now (T.text text.now) result }
    ensures within { IfOk result (FinishWithin (length (T.text text.now)) (length (T.text text.now))) }
{
    if is_at_start(around) {
        return Err(Message::Says(Notice::BeginningOfBuffer));
    }
    Ok(goes(around.place.saturating_sub(times(around))))
}

/// The column that a motion by lines goes for: that of the motion before, or, where that was none by lines, the point's.
fn goal<T: Text>(text: &T, around: &Around) -> usize
    requires place { around.now.place ≤ length (T.text text.now) }
    requires short { length (T.text text.now) < 2 ^ 32 }
    ensures { result ≡ goal_in around.now.kind (column (T.text text.now) around.now.place) }
{
    match around.kind {
        Kind::Line { goal } => goal,
        Kind::Other | Kind::Kill | Kind::Undo { .. } => column(text, around.place),
    }
}

/// To the column that a motion by lines goes for, in the line that starts at a position.
fn lined<T: Text>(text: &T, around: &Around, start: usize) -> Finish
    requires place { around.now.place ≤ length (T.text text.now) }
    requires start { start ≤ length (T.text text.now) }
    requires short { length (T.text text.now) < 2 ^ 32 }
    ensures plan { IsMotion (λ text x. Ok (lined text x start)) around.now (T.text text.now) (Ok result) }
    ensures within { FinishWithin (length (T.text text.now)) (length (T.text text.now)) result }
{
    let goal = goal(text, around);
    Finish {
        kind: Kind::Line { goal },
        ..goes(column_place(text, start, goal))
    }
}

fn next_line<T: Text>(text: &T, around: &Around) -> Result<Finish, Message>
    requires place { around.now.place ≤ length (T.text text.now) }
    requires short { length (T.text text.now) < 2 ^ 32 }
    ensures plan { IsMotion (motion NextLine) around.now (T.text text.now) result }
    ensures within { IfOk result (FinishWithin (length (T.text text.now)) (length (T.text text.now))) }
{
    let times = times(around);
    if is_last_line(text, around.place) && times > 0 {
        return Err(Message::Says(Notice::EndOfBuffer));
    }
    let start = lines_down(text, around.place, times);
    Ok(lined(text, around, start))
}

fn previous_line<T: Text>(text: &T, around: &Around) -> Result<Finish, Message>
    requires place { around.now.place ≤ length (T.text text.now) }
    requires short { length (T.text text.now) < 2 ^ 32 }
    ensures plan { IsMotion (motion PreviousLine) around.now (T.text text.now) result }
    ensures within { IfOk result (FinishWithin (length (T.text text.now)) (length (T.text text.now))) }
{
    let times = times(around);
    if is_first_line(text, around.place) && times > 0 {
        return Err(Message::Says(Notice::BeginningOfBuffer));
    }
    let start = lines_up(text, around.place, times);
    Ok(lined(text, around, start))
}

fn to_word_end<T: Text>(text: &T, around: &Around) -> Result<Finish, Message>
    requires { around.now.place ≤ length (T.text text.now) }
    ensures plan { IsMotion (motion ForwardWord) around.now (T.text text.now) result }
    ensures within { IfOk result (FinishWithin (length (T.text text.now)) (length (T.text text.now))) }
{
    if is_at_end(around, text.len()) {
        return Err(Message::Says(Notice::EndOfBuffer));
    }
    Ok(goes(forward_word(text, around.place, times(around))))
}

fn to_word_start<T: Text>(text: &T, around: &Around) -> Result<Finish, Message>
    requires { around.now.place ≤ length (T.text text.now) }
    ensures plan { IsMotion (motion BackwardWord) around.now (T.text text.now) result }
    ensures within { IfOk result (FinishWithin (length (T.text text.now)) (length (T.text text.now))) }
{
    if is_at_start(around) {
        return Err(Message::Says(Notice::BeginningOfBuffer));
    }
    Ok(goes(backward_word(text, around.place, times(around))))
}

fn to_paragraph_end<T: Text>(text: &T, around: &Around) -> Result<Finish, Message>
    requires { around.now.place ≤ length (T.text text.now) }
    ensures plan { IsMotion (motion ForwardParagraph) around.now (T.text text.now) result }
    ensures within { IfOk result (FinishWithin (length (T.text text.now)) (length (T.text text.now))) }
{
    if is_at_end(around, text.len()) {
        return Err(Message::Says(Notice::EndOfBuffer));
    }
    Ok(goes(forward_paragraph(text, around.place, times(around))))
}

fn to_paragraph_start<T: Text>(text: &T, around: &Around) -> Result<Finish, Message>
    requires { around.now.place ≤ length (T.text text.now) }
    ensures plan { IsMotion (motion BackwardParagraph) around.now (T.text text.now) result }
    ensures within { IfOk result (FinishWithin (length (T.text text.now)) (length (T.text text.now))) }
{
    if is_at_start(around) {
        return Err(Message::Says(Notice::BeginningOfBuffer));
    }
    Ok(goes(backward_paragraph(text, around.place, times(around))))
}

fn recenter<T: Text>(text: &T, around: &Around) -> Result<Finish, Message>
    requires { around.now.place ≤ length (T.text text.now) }
    ensures plan { IsMotion (motion Recenter) around.now (T.text text.now) result }
    ensures within { IfOk result (FinishWithin (length (T.text text.now)) (length (T.text text.now))) }
{
    let line = text.line_of(around.place);
    let top = text.start_of(line.saturating_sub(around.height / 2));
    Ok(Finish {
        top: Some(top),
        ..STAYS
    })
}

fn what_cursor_position<T: Text>(text: &T, around: &Around) -> Result<Finish, Message>
    requires place { around.now.place ≤ length (T.text text.now) }
    requires short { length (T.text text.now) < 2 ^ 32 }
    ensures plan { IsMotion (motion WhatCursorPosition) around.now (T.text text.now) result }
    ensures within { IfOk result (FinishWithin (length (T.text text.now)) (length (T.text text.now))) }
{
    let size = text.len();
    let at = CursorPosition {
        point: around.place,
        size,
        line: text.line_of(around.place) + 1,
        column: column(text, around.place),
    };
    let told = if around.place < size {
        Message::CharacterAt(text.at(around.place), at)
    } else {
        Message::EndAt(at)
    };
    Ok(Finish { told, ..STAYS })
}

fn exchange_point_and_mark<T: Text>(text: &T, around: &Around) -> Result<Finish, Message>
    requires place { around.now.place ≤ length (T.text text.now) }
    requires mark { IsWithin (length (T.text text.now)) around.now.mark }
    ensures plan { IsMotion (motion ExchangePointAndMark) around.now (T.text text.now) result }
    ensures within { IfOk result (FinishWithin (length (T.text text.now)) (length (T.text text.now))) }
{
    match around.mark {
        None => Err(Message::Says(Notice::NoMark)),
        Some(mark) => Ok(Finish {
            mark: Some(around.place),
            ..goes(mark)
        }),
    }
}

fn copy_region<T: Text>(text: &T, around: &Around) -> Result<Finish, Message>
    requires place { around.now.place ≤ length (T.text text.now) }
    requires mark { IsWithin (length (T.text text.now)) around.now.mark }
    ensures plan { IsMotion (motion CopyRegion) around.now (T.text text.now) result }
    ensures within { IfOk result (FinishWithin (length (T.text text.now)) (length (T.text text.now))) }
{
    match around.mark {
        None => Err(Message::Says(Notice::NoMark)),
        Some(mark) => Ok(Finish {
            kill: Some(Piece {
                from: mark.min(around.place),
                to: mark.max(around.place),
                joins: joins_behind(around.kind),
            }),
            kind: Kind::Kill,
            ..STAYS
        }),
    }
}

/// To the start of the line that the argument says, counted from 1, or of the last where there are fewer.
fn go_to_line<T: Text>(text: &T, around: &Around) -> Result<Finish, Message>
    ensures plan { IsMotion (motion GoToLine) around.now (T.text text.now) result }
    ensures within { IfOk result (FinishWithin (length (T.text text.now)) (length (T.text text.now))) }
{
    match around.argument {
        None => Err(Message::Says(Notice::NotANumber)),
        Some(line) => Ok(goes(lines_down(text, 0, line.saturating_sub(1)))),
    }
}

/// What a motion leaves in a text. `EndOfBuffer`, `BeginningOfBuffer`: it is to go on there. `NoMark`: it needs the mark.
/// `NotANumber`: it needs the argument.
pub fn motion<T: Text>(text: &T, around: &Around, command: Motion) -> Result<Finish, Message>
    requires place { around.now.place ≤ length (T.text text.now) }
    requires mark { IsWithin (length (T.text text.now)) around.now.mark }
    requires short { length (T.text text.now) < 2 ^ 32 }
    ensures plan { IsMotion (motion command) around.now (T.text text.now) result }
    ensures within { IfOk result (FinishWithin (length (T.text text.now)) (length (T.text text.now))) }
{
    match command {
        Motion::ForwardChar => forward_char(text, around),
        Motion::BackwardChar => backward_char(text, around),
        Motion::BeginningOfLine => Ok(goes(line_start(text, around.place))),
        Motion::EndOfLine => Ok(goes(line_end(text, around.place))),
        Motion::NextLine => next_line(text, around),
        Motion::PreviousLine => previous_line(text, around),
        Motion::BufferStart => Ok(goes(0)),
        Motion::BufferEnd => Ok(goes(text.len())),
        Motion::GoToLine => go_to_line(text, around),
        Motion::ForwardWord => to_word_end(text, around),
        Motion::BackwardWord => to_word_start(text, around),
        Motion::ForwardParagraph => to_paragraph_end(text, around),
        Motion::BackwardParagraph => to_paragraph_start(text, around),
        Motion::Recenter => recenter(text, around),
        Motion::WhatCursorPosition => what_cursor_position(text, around),
        Motion::SetMark => Ok(Finish {
            mark: Some(around.place),
            told: Message::Says(Notice::MarkSet),
            ..STAYS
        }),
        Motion::ExchangePointAndMark => exchange_point_and_mark(text, around),
        Motion::MarkWholeBuffer => Ok(Finish {
            mark: Some(text.len()),
            ..goes(0)
        }),
        Motion::CopyRegion => copy_region(text, around),
    }
}
