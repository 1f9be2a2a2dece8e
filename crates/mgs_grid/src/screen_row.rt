// A row of a screen.
ghost use Rattle.std.specs.Prelude.{◌≡◌, ◌+◌, ◌-◌, ◌<◌, ◌≤◌, ◌^◌, [], ◌∷◌, ◌++◌, length, replicate, decimal, codes, All, false, true, IfOk};
ghost use Rattle.mgs_model.specs.Lines.{line_end};
ghost use Rattle.mgs_model.specs.Rows.{shown_row, plain_row, mode_row, line_row, line_end_column, unread_text, buffer_mode, none_mode, Row};
ghost use Rattle.mgs_model.specs.Prompts.{prompt_line, search_text};
ghost use Rattle.mgs_model.specs.Messages.{message_text};
ghost use Rattle.mgs_model.specs.Picture.{IsPrintable};
ghost use Rattle.mgs_grid.specs.Lists.{acl_mode, listed_text, unlisted_text};
ghost use Rattle.mgs_grid.specs.Cells.{IsBlankIf, line_cells};

use crate::cells::{fill, finish, put_bytes, put_line};
use crate::echo_row::put_message;
use crate::lists::{put_acl_mode, put_entry, put_listed, put_unlisted};
use crate::mask::put_unread;
use crate::mode_line::{put_heading, put_place};
use crate::prompts::{
    prompt_width, put_prompt, put_replacing, put_search, replacing_width, search_width,
};
use mgs_lines::line_end;
use mgs_model::{Decision, Direction, Message, Name, Owners, Question, Short};
use mgs_text::Text;
use std::alloc::Global;
use std::marker::Model;

// How far a line in `start..end` has to be read for a row of `cols` columns that shows it from column `shift` on. Each
// character has a cell at least, and one more than the row's tells that the line goes on.
fn seen_end(start: usize, end: usize, shift: usize, cols: usize) -> usize
    requires order { start ≤ end }
    requires fits { start + (shift + cols) + 1 < 2 ^ 64 }
    ensures from { start ≤ result }
    ensures within { result ≤ end }
    ensures far { result < end → start + (shift + cols) < result }
{
    let last = start + (shift + cols) + 1;
    if last < end { last } else { end }
}

// From which column a line of so many cells is shown in a row of `cols` columns, so that a cell is left behind its end.
fn shift_to_end(cols: usize, width: usize) -> usize
    requires { 0 < cols }
    ensures { result ≡ width - (cols - 1) }
{
    width.saturating_sub(cols - 1)
}

/// One row of a screen, plain or in reverse as a whole.
#[derive(Drop)]
pub struct Line {
    text: Vec<char>,
    reversed: bool,
    // Whether it is known to be plain blanks.
    blank: bool,
}

impl Model for Line {
    ghost Value = { Row };

    ghost view = { λ l. record { text = l.text.items; reversed = l.reversed } };

    ghost invariant = { λ l. IsBlankIf l.blank (record { text = l.text.items; reversed = l.reversed }) };
}

impl Line {
    /// A plain row of `cols` blanks.
    ///
    /// # Errors
    ///
    /// `Short` where memory for the cells was refused.
    pub(crate) fn blank(alloc: Global, cols: usize) -> Result<Line, Short>
        ensures { IfOk result (λ l. l ≡ plain_row cols []) }
    {
        let Ok(text) = vec![in alloc; ' '; cols] else {
            return Err(Short);
        };
        Ok(Line {
            text,
            reversed: false,
            blank: true,
        })
    }

    /// The row's characters, one for each column.
    pub fn text(&self) -> &[char]
        ensures { result.now ≡ self.now.text }
    {
        &self.text
    }

    /// Whether the row is shown in reverse.
    pub fn is_reversed(&self) -> bool
        ensures { result ≡ self.now.reversed }
    {
        self.reversed
    }

    /// Whether the row is known to be plain blanks: it was cleared last.
    pub fn is_known_blank(&self) -> bool
        ensures { result ≡ true → self.now ≡ plain_row (length self.now.text) [] }
    {
        self.blank
    }

    /// Clears the row: plain blanks.
    pub(crate) fn draw_blank(&mut self)
        ensures { self.new ≡ record { text = replicate (length self.old.text) 32; reversed = false } }
    {
        self.reversed = false;
        fill(&mut self.text, ' ');
        self.blank = true;
    }

    /// Becomes the same as a row of as many columns.
    pub(crate) fn take(&mut self, from: &Line)
        requires { length self.old.text ≡ length from.now.text }
        ensures { self.new ≡ from.now }
    {
        self.reversed = from.reversed;
        self.text.copy_from_slice(&from.text);
        self.blank = from.blank;
    }

    /// Draws the line of a text that starts at `start`, plain, and tells where it ends. A line that is too long is cut
    /// with a `$`. It is shown from column `shift`, below 2^62, after a `$` unless that is 0.
    pub(crate) fn draw_text<T: Text>(&mut self, text: &T, start: usize, shift: usize) -> usize
        requires some { 4 ≤ length self.old.text }
        requires width { length self.old.text < 2 ^ 62 }
        requires within { start ≤ length (T.text text.now) }
        requires short { length (T.text text.now) < 2 ^ 32 }
        requires shift { shift < 2 ^ 62 }
        ensures row { self.new ≡ record { text = shown_row (length self.old.text) shift (line_cells (T.text text.now) start); reversed = false } }
        ensures end { result ≡ line_end (T.text text.now) start }
        ensures within { result ≤ length (T.text text.now) }
    {
        self.reversed = false;
        self.blank = false;
        let end = line_end(text, start);
        let row = self.text.as_mut_slice();
        fill(row, ' ');
        let seen = seen_end(start, end, shift, row.len());
        let column = put_line(row, shift, text, start, seen);
        finish(row, shift, column);
        end
    }

    /// Draws why a text may not be read, plain.
    pub(crate) fn draw_unread(&mut self, decision: Decision)
        requires some { 4 ≤ length self.old.text }
        requires width { length self.old.text < 2 ^ 62 }
        ensures row { self.new ≡ plain_row (length self.old.text) (unread_text decision) }
        ensures printable { All IsPrintable (unread_text decision) }
    {
        self.reversed = false;
        self.blank = false;
        let row = self.text.as_mut_slice();
        fill(row, ' ');
        let end = put_unread(row, decision);
        finish(row, 0, end);
    }

    /// Draws the mode line of a window that shows a buffer, in reverse: the buffer's name and whether it is modified,
    /// and the point's line, from 1, and column, from 0. `None` stands for what may not be told.
    pub(crate) fn draw_mode(&mut self, heading: Option<(Name, bool)>, place: Option<(usize, usize)>)
        requires some { 4 ≤ length self.old.text }
        requires width { length self.old.text < 2 ^ 62 }
        ensures row { self.new ≡ mode_row (length self.old.text) (buffer_mode heading place) }
        ensures printable { All IsPrintable (buffer_mode heading place) }
    {
        self.reversed = true;
        self.blank = false;
        let row = self.text.as_mut_slice();
        fill(row, '-');
        let at = put_heading(row, heading);
        let end = put_place(row, at, place);
        finish(row, 0, end);
    }

    /// Draws the mode line of a window that shows no buffer, in reverse.
    pub(crate) fn draw_none_mode(&mut self)
        requires some { 4 ≤ length self.old.text }
        requires width { length self.old.text < 2 ^ 62 }
        ensures { self.new ≡ mode_row (length self.old.text) none_mode }
    {
        self.reversed = true;
        self.blank = false;
        let row = self.text.as_mut_slice();
        fill(row, '-');
        let end = put_bytes(row, 0, b"-None");
        finish(row, 0, end);
    }

    /// Draws an echo text, plain.
    pub(crate) fn draw_echo(&mut self, message: &Message)
        requires some { 4 ≤ length self.old.text }
        requires width { length self.old.text < 2 ^ 62 }
        ensures row { self.new ≡ plain_row (length self.old.text) (message_text message.now) }
        ensures printable { All IsPrintable (message_text message.now) }
    {
        self.reversed = false;
        self.blank = false;
        let row = self.text.as_mut_slice();
        fill(row, ' ');
        let end = put_message(row, message);
        finish(row, 0, end);
    }

    /// Draws the line of a prompt, plain: the prompt and, behind it, what was typed. A line that leaves no cell behind it is
    /// shown as a `$` and its end. Tells the column behind it.
    pub(crate) fn draw_prompt(&mut self, question: Question, input: &[char]) -> usize
        requires some { 4 ≤ length self.old.text }
        requires width { length self.old.text < 2 ^ 62 }
        requires short { length input.now < 2 ^ 32 }
        ensures row { self.new ≡ line_row (length self.old.text) (prompt_line question input.now) }
        ensures column { result ≡ line_end_column (length self.old.text) (prompt_line question input.now) }
    {
        self.reversed = false;
        self.blank = false;
        let row = self.text.as_mut_slice();
        fill(row, ' ');
        let shift = shift_to_end(row.len(), prompt_width(question, input));
        let end = put_prompt(row, shift, question, input);
        finish(row, shift, end);
        end - shift
    }

    /// Draws the line of a search, plain: which way it goes, whether it found nothing and, behind that, what it looks for. A line
    /// that leaves no cell behind it is shown as a `$` and its end. Tells the column behind it.
    pub(crate) fn draw_search(
        &mut self,
        direction: Direction,
        failing: bool,
        pattern: &[char],
    ) -> usize
        requires some { 4 ≤ length self.old.text }
        requires width { length self.old.text < 2 ^ 62 }
        requires short { length pattern.now < 2 ^ 32 }
        ensures row { self.new ≡ line_row (length self.old.text) (search_text direction failing ++ pattern.now) }
        ensures column { result ≡ line_end_column (length self.old.text) (search_text direction failing ++ pattern.now) }
    {
        self.reversed = false;
        self.blank = false;
        let row = self.text.as_mut_slice();
        fill(row, ' ');
        let shift = shift_to_end(row.len(), search_width(direction, failing, pattern));
        let end = put_search(row, shift, direction, failing, pattern);
        finish(row, shift, end);
        end - shift
    }

    /// Draws the line of a query-replace, plain. A line that leaves no cell behind it is shown as a `$` and its end. Tells the
    /// column behind it.
    pub(crate) fn draw_replacing(&mut self) -> usize
        requires some { 4 ≤ length self.old.text }
        requires width { length self.old.text < 2 ^ 62 }
        ensures row { self.new ≡ line_row (length self.old.text) (codes "Replace? ") }
        ensures column { result ≡ line_end_column (length self.old.text) (codes "Replace? ") }
    {
        self.reversed = false;
        self.blank = false;
        let row = self.text.as_mut_slice();
        fill(row, ' ');
        let shift = shift_to_end(row.len(), replacing_width());
        let end = put_replacing(row, shift);
        finish(row, shift, end);
        end - shift
    }

    /// Draws a row of the listing of all buffers, plain: whether the buffer is modified, its size, its name and its owners.
    pub(crate) fn draw_listed(&mut self, modified: bool, size: usize, name: &Name, owners: &Owners)
        requires some { 4 ≤ length self.old.text }
        requires width { length self.old.text < 2 ^ 62 }
        ensures row { self.new ≡ plain_row (length self.old.text) (listed_text name.now modified size owners.now) }
        ensures printable { All IsPrintable (listed_text name.now modified size owners.now) }
    {
        self.reversed = false;
        self.blank = false;
        let row = self.text.as_mut_slice();
        fill(row, ' ');
        let end = put_listed(row, modified, size, name, owners);
        finish(row, 0, end);
    }

    /// Draws a row of an access list, plain: the entry's number and the entry as it is printed.
    pub(crate) fn draw_entry(&mut self, number: usize, entry: &[u8])
        requires some { 4 ≤ length self.old.text }
        requires width { length self.old.text < 2 ^ 62 }
        requires short { length entry.now < 2 ^ 32 }
        requires printable { All IsPrintable entry.now }
        ensures row { self.new ≡ plain_row (length self.old.text) (decimal number ++ 32 ∷ entry.now) }
        ensures printable { All IsPrintable (decimal number ++ 32 ∷ entry.now) }
    {
        self.reversed = false;
        self.blank = false;
        let row = self.text.as_mut_slice();
        fill(row, ' ');
        let end = put_entry(row, number, entry);
        finish(row, 0, end);
    }

    /// Draws why an access list may not be read, plain.
    pub(crate) fn draw_unlisted(&mut self, decision: Decision)
        requires some { 4 ≤ length self.old.text }
        requires width { length self.old.text < 2 ^ 62 }
        ensures row { self.new ≡ plain_row (length self.old.text) (unlisted_text decision) }
        ensures printable { All IsPrintable (unlisted_text decision) }
    {
        self.reversed = false;
        self.blank = false;
        let row = self.text.as_mut_slice();
        fill(row, ' ');
        let end = put_unlisted(row, decision);
        finish(row, 0, end);
    }

    /// Draws the mode line of the listing of all buffers, in reverse.
    pub(crate) fn draw_buffers_mode(&mut self)
        requires some { 4 ≤ length self.old.text }
        requires width { length self.old.text < 2 ^ 62 }
        ensures { self.new ≡ mode_row (length self.old.text) (codes "-Buffers") }
    {
        self.reversed = true;
        self.blank = false;
        let row = self.text.as_mut_slice();
        fill(row, '-');
        let end = put_bytes(row, 0, b"-Buffers");
        finish(row, 0, end);
    }

    /// Draws the mode line of an access list, in reverse: the buffer's name. `None` stands for what may not be told.
    pub(crate) fn draw_acl_mode(&mut self, name: Option<Name>)
        requires some { 4 ≤ length self.old.text }
        requires width { length self.old.text < 2 ^ 62 }
        ensures row { self.new ≡ mode_row (length self.old.text) (acl_mode name) }
        ensures printable { All IsPrintable (acl_mode name) }
    {
        self.reversed = true;
        self.blank = false;
        let row = self.text.as_mut_slice();
        fill(row, '-');
        let end = put_acl_mode(row, name);
        finish(row, 0, end);
    }
}
