// Commands that take out characters of a text, and put in others.
ghost use Rattle.std.specs.Prelude.{◌≡◌, ℕ, ◌≤◌, ◌<◌, ◌^◌, List, length, IfOk};
ghost use Rattle.mgs_model.specs.Plans.{alteration, exchanged_at};
ghost use Rattle.mgs_model.specs.declared.session.Alteration.TheVariants.{DeleteChar, DeleteBackwardChar, KillLine, KillWord, BackwardKillWord, KillRegion, TransposeChars};
ghost use Rattle.mgs_edit.specs.Reading.{ChangeWithin, IsWithin, deleted, killing, IsChange};

use crate::around::{goes, is_at_end, is_at_start, joins_behind, joins_in_front, times};
use crate::plan::{Around, Change, Finish, Joins, Piece, Put};
use crate::rewrite_changes::{given_of, planned};
use mgs_fill::{
    Case, case_region, case_words, delete_blank_lines, delete_horizontal_space, fill_paragraph,
    join_line, just_one_space,
};
use mgs_lines::{backward_word, forward_word, kill_line_end};
use mgs_model::{Alteration, Kind, Message, Notice};
use mgs_text::Text;

/// The characters between two positions are taken out, and the point stands where they were.
fn deletion(from: usize, to: usize) -> Change
    ensures { result ≡ deleted from to }
{
    Change {
        from,
        to,
        put: Put::Nothing,
        finish: goes(from),
    }
}

/// The same, and they join the kill buffer.
fn kill(from: usize, to: usize, joins: Joins) -> Change
    ensures { result ≡ killing from to joins }
{
    Change {
        from,
        to,
        put: Put::Nothing,
        finish: Finish {
            kill: Some(Piece { from, to, joins }),
            kind: Kind::Kill,
            ..goes(from)
        },
    }
}

fn delete_char<T: Text>(text: &T, around: &Around) -> Result<Change, Message>
    requires { around.now.place ≤ length (T.text text.now) }
    ensures plan { IsChange (alteration DeleteChar) around.now (T.text text.now) result }
    ensures within { (kill : List ℕ) → IfOk result (ChangeWithin (T.text text.now) kill) }
{
    let size = text.len();
    if is_at_end(around, size) {
        return Err(Message::Says(Notice::EndOfBuffer));
    }
    let times = times(around);
    if times > size - around.place {
        return Ok(deletion(around.place, size));
    }
    Ok(deletion(around.place, around.place + times))
}

fn delete_backward_char<T: Text>(text: &T, around: &Around) -> Result<Change, Message>
    requires { around.now.place ≤ length (T.text text.now) }
    ensures plan { IsChange (alteration DeleteBackwardChar) around.now (T.text text.now) result }
    ensures within { (kill : List ℕ) → IfOk result (ChangeWithin (T.text text.now) kill) }
{
    if is_at_start(around) {
        return Err(Message::Says(Notice::BeginningOfBuffer));
    }
    Ok(deletion(around.place.saturating_sub(times(around)), around.place))
}

/// An argument of 0 kills what is before the place in its line.
fn kill_line<T: Text>(text: &T, around: &Around) -> Result<Change, Message>
    requires { around.now.place ≤ length (T.text text.now) }
    ensures plan { IsChange (alteration KillLine) around.now (T.text text.now) result }
    ensures within { (kill : List ℕ) → IfOk result (ChangeWithin (T.text text.now) kill) }
{
    let at = around.place;
    if times(around) == 0 {
        let start = kill_line_end(text, at, around.argument);
        return Ok(kill(start, at, joins_in_front(around.kind)));
    }
    if is_at_end(around, text.len()) {
        return Err(Message::Says(Notice::EndOfBuffer));
    }
    let end = kill_line_end(text, at, around.argument);
    Ok(kill(at, end, joins_behind(around.kind)))
}

fn kill_to_word_end<T: Text>(text: &T, around: &Around) -> Result<Change, Message>
    requires { around.now.place ≤ length (T.text text.now) }
    ensures plan { IsChange (alteration KillWord) around.now (T.text text.now) result }
    ensures within { (kill : List ℕ) → IfOk result (ChangeWithin (T.text text.now) kill) }
{
    if is_at_end(around, text.len()) {
        return Err(Message::Says(Notice::EndOfBuffer));
    }
    let end = forward_word(text, around.place, times(around));
    Ok(kill(around.place, end, joins_behind(around.kind)))
}

fn kill_to_word_start<T: Text>(text: &T, around: &Around) -> Result<Change, Message>
    requires { around.now.place ≤ length (T.text text.now) }
    ensures plan { IsChange (alteration BackwardKillWord) around.now (T.text text.now) result }
    ensures within { (kill : List ℕ) → IfOk result (ChangeWithin (T.text text.now) kill) }
{
    if is_at_start(around) {
        return Err(Message::Says(Notice::BeginningOfBuffer));
    }
    let start = backward_word(text, around.place, times(around));
    Ok(kill(start, around.place, joins_in_front(around.kind)))
}

fn kill_region<T: Text>(text: &T, around: &Around) -> Result<Change, Message>
    requires place { around.now.place ≤ length (T.text text.now) }
    requires mark { IsWithin (length (T.text text.now)) around.now.mark }
    ensures plan { IsChange (alteration KillRegion) around.now (T.text text.now) result }
    ensures within { (kill : List ℕ) → IfOk result (ChangeWithin (T.text text.now) kill) }
{
    match around.mark {
        None => Err(Message::Says(Notice::NoMark)),
        Some(mark) => Ok(kill(
            mark.min(around.place),
            mark.max(around.place),
            joins_behind(around.kind),
        )),
    }
}

fn transpose_chars<T: Text>(text: &T, around: &Around) -> Result<Change, Message>
    requires { around.now.place ≤ length (T.text text.now) }
    ensures plan { IsChange (alteration TransposeChars) around.now (T.text text.now) result }
    ensures within { (kill : List ℕ) → IfOk result (ChangeWithin (T.text text.now) kill) }
{
    let at = exchanged_at(text, around.place);
    if at == 0 {
        return Err(Message::Says(Notice::BeginningOfBuffer));
    }
    Ok(Change {
        from: at - 1,
        to: at + 1,
        put: Put::Exchanged { at },
        finish: goes(at + 1),
    })
}

/// The second of the characters that are exchanged at a position: the one after it, or at a line's end the one before.
fn exchanged_at<T: Text>(text: &T, p: usize) -> usize
    requires { p ≤ length (T.text text.now) }
    ensures value { result ≡ exchanged_at (T.text text.now) p }
    ensures within { 0 < result → result < length (T.text text.now) }
    ensures fits { result < 2 ^ 61 }
{
    if p == text.len() || text.at(p) == '\n' {
        p.saturating_sub(1)
    } else {
        p
    }
}

/// What an alteration does to a text. `EndOfBuffer`, `BeginningOfBuffer`: it is to go on there. `NoMark`: it needs the
/// mark.
pub fn alteration<T: Text>(
    text: &T,
    around: &Around,
    command: Alteration,
) -> Result<Change, Message>
    requires place { around.now.place ≤ length (T.text text.now) }
    requires mark { IsWithin (length (T.text text.now)) around.now.mark }
    ensures plan { IsChange (alteration command) around.now (T.text text.now) result }
    ensures within { (kill : List ℕ) → IfOk result (ChangeWithin (T.text text.now) kill) }
{
    let given = given_of(around);
    match command {
        Alteration::DeleteChar => delete_char(text, around),
        Alteration::DeleteBackwardChar => delete_backward_char(text, around),
        Alteration::KillLine => kill_line(text, around),
        Alteration::KillWord => kill_to_word_end(text, around),
        Alteration::BackwardKillWord => kill_to_word_start(text, around),
        Alteration::KillRegion => kill_region(text, around),
        Alteration::TransposeChars => transpose_chars(text, around),
        Alteration::UpcaseWord => planned(case_words(text, &given, Case::Upper)),
        Alteration::DowncaseWord => planned(case_words(text, &given, Case::Lower)),
        Alteration::CapitalizeWord => planned(case_words(text, &given, Case::Capitalized)),
        Alteration::UpcaseRegion => planned(case_region(text, &given, Case::Upper)),
        Alteration::DowncaseRegion => planned(case_region(text, &given, Case::Lower)),
        Alteration::JustOneSpace => planned(Ok(just_one_space(text, &given))),
        Alteration::DeleteHorizontalSpace => planned(Ok(delete_horizontal_space(text, &given))),
        Alteration::DeleteBlankLines => planned(Ok(delete_blank_lines(text, &given))),
        Alteration::JoinLine => planned(join_line(text, &given)),
        Alteration::FillParagraph => planned(Ok(fill_paragraph(text, &given))),
    }
}
