// Insertions.
ghost use Rattle.std.specs.Prelude.{◌≡◌, ℕ, ◌≤◌, List, length, IfOk, Ok};
ghost use Rattle.mgs_model.specs.Plans.{insertion, reading_insertion};
ghost use Rattle.mgs_model.specs.declared.session.ReadingInsertion.TheVariants.{NewlineAndIndent};
ghost use Rattle.mgs_edit.specs.declared.plan.Put.TheVariants.{KillBuffer};
ghost use Rattle.mgs_edit.specs.Reading.{ChangeWithin, coming, marked, IsChange, IsInsertion};

use crate::around::{goes, times};
use crate::plan::{Around, Change, Finish, Goes, Put, STAYS};
use mgs_lines::{indent_end, line_start};
use mgs_model::{Insertion, Message, Notice, ReadingInsertion};
use mgs_text::Text;

/// So much is put in at a position, and the point goes behind it.
fn put_in(at: usize, put: Put) -> Change
    ensures { result ≡ coming at put }
{
    Change {
        from: at,
        to: at,
        put,
        finish: Finish {
            point: Goes::Behind,
            ..STAYS
        },
    }
}

/// The kill buffer is put in so many times, and the mark is set before it.
fn yank(at: usize, times: usize) -> Change
    ensures { result ≡ marked at (coming at (KillBuffer times)) }
{
    let plan = put_in(at, Put::KillBuffer { times });
    Change {
        finish: Finish {
            mark: Some(at),
            ..plan.finish
        },
        ..plan
    }
}

/// What an insertion puts in at the place of a text of `size` characters, of which it sees no more. `NothingToYank`: the
/// kill buffer is empty.
pub fn insertion(size: usize, around: &Around, command: Insertion) -> Result<Change, Message>
    requires { around.now.place ≤ size }
    ensures plan { IsInsertion (insertion command) around.now size result }
    ensures within { (text kill : List ℕ) → length text ≡ size → IfOk result (ChangeWithin text kill) }
{
    let at = around.place;
    let times = times(around);
    match command {
        Insertion::SelfInsert(put) => Ok(put_in(at, Put::Character { put, times })),
        Insertion::Newline => Ok(put_in(at, Put::Character { put: '\n', times })),
        Insertion::OpenLine => Ok(Change {
            finish: goes(at),
            ..put_in(at, Put::Character { put: '\n', times })
        }),
        Insertion::Yank if around.killed == 0 => Err(Message::Says(Notice::NothingToYank)),
        Insertion::Yank => Ok(yank(at, times)),
    }
}

/// What newline-and-indent puts in: line feeds, and the white that begins the place's line.
fn newline_and_indent<T: Text>(text: &T, around: &Around) -> Change
    requires { around.now.place ≤ length (T.text text.now) }
    ensures plan { IsChange (reading_insertion NewlineAndIndent) around.now (T.text text.now) (Ok result) }
    ensures within { (kill : List ℕ) → ChangeWithin (T.text text.now) kill result }
{
    let at = around.place;
    let white = Put::Indented {
        feeds: times(around),
        from: line_start(text, at),
        to: indent_end(text, at),
    };
    put_in(at, white)
}

/// What an insertion puts in that depends on the text.
pub fn reading_insertion<T: Text>(text: &T, around: &Around, command: ReadingInsertion) -> Change
    requires { around.now.place ≤ length (T.text text.now) }
    ensures plan { IsChange (reading_insertion command) around.now (T.text text.now) (Ok result) }
    ensures within { (kill : List ℕ) → ChangeWithin (T.text text.now) kill result }
{
    match command {
        ReadingInsertion::NewlineAndIndent => newline_and_indent(text, around),
    }
}
