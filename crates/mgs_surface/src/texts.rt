// Texts with marks, edits that are kept, and what is read of a text.
ghost use Rattle.std.specs.Prelude.{◌≡◌, ◌<◌, ◌≤◌, ◌^◌, length, true};
ghost use Rattle.mgs_edit.specs.Planned.{is_planned};
ghost use Rattle.mgs_edit.specs.Reading.{IsWithin};

use mgs_edit::{Around, Failure, Plan, plan_command};
use mgs_fill::{Case, Given, Rewrite, case_words, fill_paragraph, just_one_space};
use mgs_gap::GapText;
use mgs_lines::{column, forward_paragraph, forward_word, line_end, line_start};
use mgs_marks::{Marked, PlainMarked};
use mgs_model::{Command, MarkId, Message, Short, TEXT_LIMIT};
use mgs_search::{find_backward, find_forward, matches_at};
use mgs_text::{PlainText, Text};
use mgs_undo::{Edit, Record};
use std::alloc::Global;

// A text is a list of characters.
fn use_text<T: Text>(text: &mut T) -> Result<Vec<char>, Short> {
    let len: usize = text.len();
    if len > 0 {
        let _first: char = text.at(0);
    }
    let copied: Vec<char> = text.copy(0, len)?;
    let replaced: Result<(), Short> = text.replace(0, len, &['a', ' ', 'b']);
    replaced?;
    Ok(copied)
}

// Marks follow edits.
fn use_marks<T: Marked>(text: &mut T) -> Result<usize, Short> {
    let id: MarkId = text.add_mark(0)?;
    text.place(id, 0);
    let place: usize = text.pos(id);
    text.drop_mark(id);
    Ok(place)
}

// Both kinds of text.
pub(crate) fn use_texts(alloc: Global) -> Result<usize, Short> {
    let mut plain = PlainText::of(alloc, &['a'])?;
    let copied = use_text(&mut plain)?;
    let mut marked = PlainMarked::of(alloc, &[])?;
    let mut gap = GapText::of(alloc, &[])?;
    let _places = (use_marks(&mut marked)?, use_marks(&mut gap)?);
    read_text(&gap);
    Ok(copied.len())
}

// Lines, columns, words, paragraphs and matches of a text.
fn read_text<T: Text>(text: &T) {
    let _line: (usize, usize) = (line_start(text, 0), line_end(text, 0));
    if text.len() <= TEXT_LIMIT {
        let _column: usize = column(text, 0);
    }
    let _word: usize = forward_word(text, 0, 1);
    let _paragraph: usize = forward_paragraph(text, 0, 1);
    let _matches: bool = matches_at(text, 0, &['a']);
    let _found: Option<usize> = find_forward(text, 0, &['a']);
    let _before: Option<usize> = find_backward(text, 0, &['a']);
}

// The last edits, by their serials.
pub(crate) fn use_record(alloc: Global) -> Result<u64, Short> {
    let made: Result<Record, Short> = Record::new(alloc);
    let mut record = made?;
    let edit = Edit {
        at: 0,
        removed: Vec::new(alloc),
        added: 1,
    };
    let _oldest: Option<Edit> = record.push(edit);
    let _item: Option<&Edit> = record.item(1);
    Ok(record.serial())
}

// What a command on a text comes to.
fn use_plan<T: Text>(command: Command, text: &T, around: &Around) -> Option<Failure>
    requires planned { is_planned command ≡ true }
    requires place { around.now.place ≤ length (T.text text.now) }
    requires mark { IsWithin (length (T.text text.now)) around.now.mark }
    requires short { length (T.text text.now) < 2 ^ 32 }
{
    let planned: Result<Plan, Failure> = plan_command(command, text, around);
    match planned {
        Ok(Plan::Edits(_) | Plan::Moves(_)) => None,
        Err(failure) => Some(failure),
    }
}

// A paragraph is filled, words come in upper case, and white becomes one space.
fn use_fill<T: Text>(text: &T, given: &Given) -> bool
    requires { given.now.place ≤ length (T.text text.now) }
{
    let filled: Rewrite = fill_paragraph(text, given);
    let cased: Result<Rewrite, Message> = case_words(text, given, Case::Upper);
    let spaced: Rewrite = just_one_space(text, given);
    filled.from == spaced.from && cased.is_ok()
}
