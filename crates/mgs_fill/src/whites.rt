// Commands on white: spaces, tabs and blank lines.
ghost use Rattle.std.specs.Prelude.{◌≡◌, ◌≤◌, length, IfOk, Ok};
ghost use Rattle.mgs_model.specs.Plans.{alteration, joins_line};
ghost use Rattle.mgs_model.specs.declared.session.Alteration.TheVariants.{DeleteBlankLines, DeleteHorizontalSpace, JoinLine, JustOneSpace};
ghost use Rattle.mgs_fill.specs.Rewriting.{answer_read, IsRewrite, RewriteWithin};
ghost use Rattle.mgs_fill.specs.declared.rewrite.Point.TheVariants.{To};
ghost use Rattle.mgs_fill.specs.declared.rewrite.Written.TheVariants.{Nothing};

use crate::rewrite::{Given, Point, Rewrite, Written};
use mgs_lines::{
    blanks_end, blanks_start, is_blank_at, line_end, line_start, white_end, white_start,
};
use mgs_model::{Message, Notice};
use mgs_text::Text;

/// A stretch that goes, with the point where it was.
fn taken_out(from: usize, to: usize) -> Rewrite
    ensures { result ≡ record { from = from; to = to; written = Nothing; point = To from } }
{
    Rewrite {
        from,
        to,
        written: Written::Nothing,
        point: Point::To(from),
    }
}

/// The white around the place becomes one space, and the point stands behind it.
pub fn just_one_space<T: Text>(text: &T, given: &Given) -> Rewrite
    requires { given.now.place ≤ length (T.text text.now) }
    ensures plan { IsRewrite (alteration JustOneSpace) given.now (T.text text.now) (Ok result) }
    ensures within { RewriteWithin (T.text text.now) result }
{
    Rewrite {
        from: white_start(text, given.place),
        to: white_end(text, given.place),
        written: Written::Space,
        point: Point::Behind,
    }
}

/// The white around the place is taken out, and the point stands where it was.
pub fn delete_horizontal_space<T: Text>(text: &T, given: &Given) -> Rewrite
    requires { given.now.place ≤ length (T.text text.now) }
    ensures plan { IsRewrite (alteration DeleteHorizontalSpace) given.now (T.text text.now) (Ok result) }
    ensures within { RewriteWithin (T.text text.now) result }
{
    taken_out(white_start(text, given.place), white_end(text, given.place))
}

/// Blank lines around a blank one become one that is empty, with the point in it. From another line those are taken out
/// that directly follow it.
pub fn delete_blank_lines<T: Text>(text: &T, given: &Given) -> Rewrite
    requires { given.now.place ≤ length (T.text text.now) }
    ensures plan { IsRewrite (alteration DeleteBlankLines) given.now (T.text text.now) (Ok result) }
    ensures within { RewriteWithin (T.text text.now) result }
{
    let end = blanks_end(text, given.place);
    if is_blank_at(text, given.place) {
        return taken_out(blanks_start(text, given.place), end);
    }
    Rewrite {
        from: line_end(text, given.place),
        to: end,
        written: Written::Nothing,
        point: Point::Stays,
    }
}

/// The line feed before the line that starts there, and the white around it, become one space, with the point before it.
fn joined<T: Text>(text: &T, start: usize) -> Rewrite
    requires some { 1 ≤ start }
    requires within { start ≤ length (T.text text.now) }
    ensures plan { answer_read (T.text text.now) (Ok result) ≡ joins_line (T.text text.now) start }
    ensures within { RewriteWithin (T.text text.now) result }
{
    let from = white_start(text, start - 1);
    Rewrite {
        from,
        to: white_end(text, start),
        written: Written::Space,
        point: Point::To(from),
    }
}

/// The place's line is joined to the one above: the line feed between them, and the white around it, become one space, with the point
/// before it. `BeginningOfBuffer`: there is none.
pub fn join_line<T: Text>(text: &T, given: &Given) -> Result<Rewrite, Message>
    requires { given.now.place ≤ length (T.text text.now) }
    ensures plan { IsRewrite (alteration JoinLine) given.now (T.text text.now) result }
    ensures within { IfOk result (RewriteWithin (T.text text.now)) }
{
    let start = line_start(text, given.place);
    if start == 0 {
        return Err(Message::Says(Notice::BeginningOfBuffer));
    }
    Ok(joined(text, start))
}
