// The rows of a screen, and a cursor.
ghost use Rattle.std.specs.Prelude.{◌≡◌, ◌+◌, ◌<◌, ◌≤◌, ◌^◌, [], ◌∷◌, ◌++◌, length, drop, decimal, codes, All, None, IfOk};
ghost use Rattle.mgs_model.specs.Rows.{text_rows, shift_at, blank_rows, unread_rows, plain_row, mode_row, buffer_mode, none_mode, echo_row, line_row, line_end_column};
ghost use Rattle.mgs_model.specs.Prompts.{prompt_line, search_text};
ghost use Rattle.mgs_model.specs.Picture.{Picture, IsPicture, IsPrintable, IsSize, blank_picture};
ghost use Rattle.mgs_grid.specs.Lists.{acl_mode, listed_text, unlisted_text};
ghost use Rattle.mgs_grid.specs.Panes.{CompletesPanes, text_put, with_rows};
ghost use Rattle.mgs_grid.specs.RowSets.{AreSameApart};

use crate::row_set::RowSet;
use crate::screen_row::Line;
use crate::shift::ShiftedRow;
use crate::window::{clear_rows, draw_rows, take_some};
use mgs_model::{Decision, Direction, Message, Name, Owners, Question, ROWS_MAX, Short};
use mgs_text::Text;
use std::alloc::Global;
use std::marker::Model;

/// What a screen is to show: its rows, from the top, and its cursor.
#[derive(Drop)]
pub struct Grid {
    rows: usize,
    cols: usize,
    lines: Vec<Line>,
    row: usize,
    col: usize,
}

impl Model for Grid {
    ghost Value = { Picture };

    ghost view = { λ g. record { rows = g.rows; cols = g.cols; lines = g.lines.items; row = g.row; col = g.col } };

    ghost invariant = { λ g. IsPicture (record { rows = g.rows; cols = g.cols; lines = g.lines.items; row = g.row; col = g.col }) };
}

impl Grid {
    /// A screen of 6 to 64 rows and 20 to 160 columns: plain blanks, the cursor in the first cell.
    ///
    /// # Errors
    ///
    /// `Short` where memory for the rows was refused.
    pub fn new(alloc: Global, rows: usize, cols: usize) -> Result<Grid, Short>
        requires { IsSize rows cols }
        ensures { IfOk result (λ g. g ≡ blank_picture rows cols) }
    {
        let mut lines = Vec::new(alloc);
        for _ in 0..rows {
            let line = Line::blank(alloc, cols)?;
            if lines.push(line).is_err() {
                return Err(Short);
            }
        }
        Ok(Grid {
            rows,
            cols,
            lines,
            row: 0,
            col: 0,
        })
    }

    /// The number of rows.
    pub fn rows(&self) -> usize
        ensures value { result ≡ self.now.rows }
        ensures picture { IsPicture self.now }
    {
        self.rows
    }

    /// The number of columns.
    pub fn cols(&self) -> usize
        ensures value { result ≡ self.now.cols }
        ensures picture { IsPicture self.now }
    {
        self.cols
    }

    /// The rows, from the top.
    pub fn lines(&self) -> &[Line]
        ensures value { result.now ≡ self.now.lines }
        ensures picture { IsPicture self.now }
    {
        &self.lines
    }

    /// The cursor's row and column, from 0.
    pub fn cursor(&self) -> (usize, usize)
        ensures value { result ≡ (self.now.row, self.now.col) }
        ensures picture { IsPicture self.now }
    {
        (self.row, self.col)
    }

    /// Moves the cursor.
    pub fn set_cursor(&mut self, row: usize, col: usize)
        requires row { row < self.old.rows }
        requires col { col < self.old.cols }
        ensures { self.new ≡ record self.old { row = row; col = col } }
    {
        self.row = row;
        self.col = col;
    }

    /// Becomes the same as a screen of the same size that is the same but for its cursor and the rows of a set. Only these are copied.
    pub fn take_rows(&mut self, from: &Grid, rows: &RowSet)
        requires rows { from.now.rows ≡ self.old.rows }
        requires cols { from.now.cols ≡ self.old.cols }
        requires same { AreSameApart rows.now self.old.lines from.now.lines }
        ensures { self.new ≡ from.now }
    {
        let cols = self.cols;
        take_some(&mut self.lines, cols, &from.lines, rows);
        self.row = from.row;
        self.col = from.col;
    }

    /// Draws a text into `height` rows from row `first` on, one line in each, from the line that starts at
    /// `top` on. A line that is too long is cut with a `$`. One row of these, counted from the first, is shown from its
    /// own column, after a `$` unless that is 0. Rows past the text are blank.
    pub fn draw_text<T: Text>(
        &mut self,
        first: usize,
        height: usize,
        text: &T,
        top: usize,
        shifted: ShiftedRow,
    )
        requires rows { first + height ≤ self.old.rows }
        requires within { top ≤ length (T.text text.now) }
        requires short { length (T.text text.now) < 2 ^ 32 }
        requires shift { shifted.shift < 2 ^ 62 }
        ensures { self.new ≡ with_rows first (text_rows self.old.cols (shift_at shifted.row shifted.shift) 0 height (drop top (T.text text.now))) self.old }
    {
        let cols = self.cols;
        let lines = &mut self.lines[first..first + height];
        draw_rows(lines, cols, text, top, shifted);
    }

    // Draws row `at` with the line of a text that starts at `start`.
    fn draw_line<T: Text>(&mut self, at: usize, text: &T, start: usize, shift: usize)
        requires row { at < self.old.rows }
        requires within { start ≤ length (T.text text.now) }
        requires short { length (T.text text.now) < 2 ^ 32 }
        requires shift { shift < 2 ^ 62 }
        ensures { self.new ≡ record self.old { lines = text_put at 1 0 shift (drop start (T.text text.now)) self.old } }
    {
        self.draw_text(at, 1, text, start, ShiftedRow { row: 0, shift });
    }

    /// Draws row `at` of a pane that shows a text, with the line that starts at `start`. Where the pane's other rows show the
    /// text already, this does what `draw_text` does. The row is shown from column `shift`, after a `$` unless that is 0.
    pub fn draw_text_row<T: Text>(&mut self, at: usize, text: &T, start: usize, shift: usize)
        requires row { at < self.old.rows }
        requires within { start ≤ length (T.text text.now) }
        requires short { length (T.text text.now) < 2 ^ 32 }
        requires shift { shift < 2 ^ 62 }
        ensures row { self.new ≡ record self.old { lines = text_put at 1 0 shift (drop start (T.text text.now)) self.old } }
        ensures pane { CompletesPanes at start shift (T.text text.now) self.old self.new }
    {
        prove!(self.rows() <= ROWS_MAX);
        self.draw_line(at, text, start, shift);
    }

    /// Draws `height` rows from row `first` on, of which the first says why a text may not be read.
    pub fn draw_unread(&mut self, first: usize, height: usize, decision: Decision)
        requires rows { first + height ≤ self.old.rows }
        requires height { 0 < height }
        ensures { self.new ≡ with_rows first (unread_rows self.old.cols height decision) self.old }
    {
        self.draw_blank(first, height);
        self.lines[first].draw_unread(decision);
    }

    /// Clears `height` rows from row `first` on.
    pub fn draw_blank(&mut self, first: usize, height: usize)
        requires { first + height ≤ self.old.rows }
        ensures { self.new ≡ with_rows first (blank_rows self.old.cols height) self.old }
    {
        let cols = self.cols;
        clear_rows(&mut self.lines[first..first + height], cols);
    }

    /// Draws the mode line of a window that shows a buffer: the buffer's name and whether it is modified, and
    /// the point's line, from 1, and column, from 0. `None` stands for what may not be told.
    pub fn draw_mode(
        &mut self,
        row: usize,
        heading: Option<(Name, bool)>,
        place: Option<(usize, usize)>,
    )
        requires { row < self.old.rows }
        ensures { self.new ≡ with_rows row (mode_row self.old.cols (buffer_mode heading place) ∷ []) self.old }
    {
        self.lines[row].draw_mode(heading, place);
    }

    /// Draws the mode line of a window that shows no buffer.
    pub fn draw_none_mode(&mut self, row: usize)
        requires { row < self.old.rows }
        ensures { self.new ≡ with_rows row (mode_row self.old.cols none_mode ∷ []) self.old }
    {
        self.lines[row].draw_none_mode();
    }

    /// Draws an echo text in the echo row.
    pub fn draw_echo(&mut self, row: usize, message: &Message)
        requires { row < self.old.rows }
        ensures { self.new ≡ with_rows row (echo_row self.old.cols None message.now ∷ []) self.old }
    {
        self.lines[row].draw_echo(message);
    }

    /// Draws the line of a prompt in the echo row: the prompt and, behind it, what was typed. A line that leaves no cell behind
    /// it is shown as a `$` and its end. Tells the column behind it, where the cursor belongs.
    pub fn draw_prompt(&mut self, row: usize, question: Question, input: &[char]) -> usize
        requires row { row < self.old.rows }
        requires short { length input.now < 2 ^ 32 }
        ensures grid { self.new ≡ with_rows row (line_row self.old.cols (prompt_line question input.now) ∷ []) self.old }
        ensures column { result ≡ line_end_column self.old.cols (prompt_line question input.now) }
        ensures within { result < self.old.cols }
    {
        self.lines[row].draw_prompt(question, input)
    }

    /// Draws the line of a search in the echo row: which way it goes, whether it found nothing and, behind that, what it looks for. A
    /// line that leaves no cell behind it is shown as a `$` and its end. Tells the column behind it, where the cursor belongs.
    pub fn draw_search(
        &mut self,
        row: usize,
        direction: Direction,
        failing: bool,
        pattern: &[char],
    ) -> usize
        requires row { row < self.old.rows }
        requires short { length pattern.now < 2 ^ 32 }
        ensures grid { self.new ≡ with_rows row (line_row self.old.cols (search_text direction failing ++ pattern.now) ∷ []) self.old }
        ensures column { result ≡ line_end_column self.old.cols (search_text direction failing ++ pattern.now) }
        ensures within { result < self.old.cols }
    {
        self.lines[row].draw_search(direction, failing, pattern)
    }

    /// Draws the line of a query-replace in the echo row. A line that leaves no cell behind it is shown as a `$` and its end. Tells
    /// the column behind it.
    pub fn draw_replacing(&mut self, row: usize) -> usize
        requires row { row < self.old.rows }
        ensures grid { self.new ≡ with_rows row (line_row self.old.cols (codes "Replace? ") ∷ []) self.old }
        ensures column { result ≡ line_end_column self.old.cols (codes "Replace? ") }
        ensures within { result < self.old.cols }
    {
        self.lines[row].draw_replacing()
    }

    /// Draws a row of the listing of all buffers: whether the buffer is modified, its size, its name and its owners.
    pub fn draw_listed(
        &mut self,
        row: usize,
        modified: bool,
        size: usize,
        name: &Name,
        owners: &Owners,
    )
        requires { row < self.old.rows }
        ensures { self.new ≡ with_rows row (plain_row self.old.cols (listed_text name.now modified size owners.now) ∷ []) self.old }
    {
        self.lines[row].draw_listed(modified, size, name, owners);
    }

    /// Draws a row of an access list: the entry's number and the entry as it is printed.
    pub fn draw_entry(&mut self, row: usize, number: usize, entry: &[u8])
        requires row { row < self.old.rows }
        requires short { length entry.now < 2 ^ 32 }
        requires printable { All IsPrintable entry.now }
        ensures { self.new ≡ with_rows row (plain_row self.old.cols (decimal number ++ 32 ∷ entry.now) ∷ []) self.old }
    {
        self.lines[row].draw_entry(number, entry);
    }

    /// Draws a row that says why an access list may not be read.
    pub fn draw_unlisted(&mut self, row: usize, decision: Decision)
        requires { row < self.old.rows }
        ensures { self.new ≡ with_rows row (plain_row self.old.cols (unlisted_text decision) ∷ []) self.old }
    {
        self.lines[row].draw_unlisted(decision);
    }

    /// Draws the mode line of the listing of all buffers.
    pub fn draw_buffers_mode(&mut self, row: usize)
        requires { row < self.old.rows }
        ensures { self.new ≡ with_rows row (mode_row self.old.cols (codes "-Buffers") ∷ []) self.old }
    {
        self.lines[row].draw_buffers_mode();
    }

    /// Draws the mode line of an access list: the buffer's name. `None` stands for what may not be told.
    pub fn draw_acl_mode(&mut self, row: usize, name: Option<Name>)
        requires { row < self.old.rows }
        ensures { self.new ≡ with_rows row (mode_row self.old.cols (acl_mode name) ∷ []) self.old }
    {
        self.lines[row].draw_acl_mode(name);
    }
}
