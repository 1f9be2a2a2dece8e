// Cells written into a row one after another.
ghost use Rattle.std.specs.Prelude.{◌≡◌, ◌+◌, ◌-◌, ◌*◌, ◌%◌, ◌<◌, ◌≤◌, ◌^◌, length, take, map, replicate, decimal, slice_range, All, IsTrue};
ghost use Rattle.std.specs.List.{list_all};
ghost use Rattle.std.specs.Int.Digits.{digits_of};
ghost use Rattle.std.specs.Char.{digit_char};
ghost use Rattle.mgs_model.specs.Cells.{glyph, escape, own_cells, cells, cells_from, IsPrintable};
ghost use Rattle.mgs_grid.specs.Cells.{put, over, first_signed, last_signed, finished, is_plain, Wrote};

use itoa::Buffer;
use mgs_model::{Name, RIGHT_HALF, own_columns};
use mgs_text::Text;

/// Writes one character into each cell of a row.
pub(crate) fn fill(row: &mut [char], c: char)
    ensures { row.new ≡ replicate (length row.old) c }
{
    for cell in row.iter_mut() {
        *cell = c;
    }
}

// A `$` in the last cell. Where that is a right half, its left half becomes a blank.
fn sign_last(row: &mut [char])
    requires { 2 ≤ length row.old }
    ensures { row.new ≡ last_signed row.old }
{
    let last = row.len() - 1;
    if row[last] == RIGHT_HALF {
        row[last - 1] = ' ';
    }
    row[last] = '$';
}

// A `$` in the first cell. Where that is a left half, its right half becomes a blank.
fn sign_first(row: &mut [char])
    requires { 2 ≤ length row.old }
    ensures { row.new ≡ first_signed row.old }
{
    if row[1] == RIGHT_HALF {
        row[1] = ' ';
    }
    row[0] = '$';
}

/// Writes the signs that more cells stand after a row and before it. The row has two cells and shows a line from column
/// `shift` on, and `column` is the one after the line's last cell. The row's last cell becomes a `$` where `column`
/// is greater than `shift` plus the row's length, and its first cell where `shift` is not 0. A half that loses its other half
/// by that becomes a blank.
pub(crate) fn finish(row: &mut [char], shift: usize, column: usize)
    requires some { 2 ≤ length row.old }
    requires fits { shift + length row.old < 2 ^ 64 }
    ensures { row.new ≡ finished row.old shift column }
{
    if column > shift + row.len() {
        sign_last(row);
    }
    if shift > 0 {
        sign_first(row);
    }
}

#[inline(always)]
pub(crate) fn put(row: &mut [char], shift: usize, column: usize, c: char)
    ensures { row.new ≡ put row.old shift column c }
{
    if column >= shift && column - shift < row.len() {
        row[column - shift] = c;
    }
}

pub(crate) fn put_blanks(row: &mut [char], shift: usize, column: usize, count: usize)
    requires { column + count < 2 ^ 64 }
    ensures { row.new ≡ over row.old shift column (replicate count 32) }
{
    for at in 0..count {
        put(row, shift, column + at, ' ');
    }
}

// Writes a number in hexadecimal digits, and none where it is 0.
fn put_hex(row: &mut [char], shift: usize, column: usize, n: usize) -> usize
    requires { column + length (digits_of 16 n) < 2 ^ 64 }
    ensures row { row.new ≡ over row.old shift column (map digit_char (digits_of 16 n)) }
    ensures next { result ≡ column + length (digits_of 16 n) }
{
    if n == 0 {
        return column;
    }
    let at = put_hex(row, shift, column, n / 16);
    put(row, shift, at, digit((n % 16) as u32));
    at + 1
}

fn digit(n: u32) -> char
    requires { n < 36 }
    ensures { result ≡ digit_char n }
{
    char::from_digit(n, 36).unwrap_or('0')
}

// Writes a decimal number.
#[tactic(auto, using(crate::proofs::Plain::decimal_plain, crate::proofs::Plain::decimal_short))]
pub(crate) fn put_decimal(row: &mut [char], column: usize, n: usize) -> usize
    requires { column < 2 ^ 62 }
    ensures wrote { Wrote row.old column (decimal n) row.new result }
    ensures few { result ≤ column + 20 }
{
    put_bytes(row, column, Buffer::new().format(n).as_bytes())
}

/// Writes visible ASCII and spaces into a row from a column on, and tells the column after them. Those after the
/// row's end are passed over.
pub(crate) fn put_bytes(row: &mut [char], column: usize, bytes: &[u8]) -> usize
    requires fits { column + length bytes.now < 2 ^ 64 }
    requires plain { IsTrue (list_all is_plain bytes.now) }
    ensures wrote { Wrote row.old column bytes.now row.new result }
    ensures next { result ≡ column + length bytes.now }
{
    for (i, b) in bytes.iter().enumerate() {
        put(row, 0, column + i, *b as char);
    }
    column + bytes.len()
}

/// Writes the cells of a character, which stands in a column of its line, below 2^62, into a row that shows the line
/// from column `shift` on, and tells the column after them, at most 12 further. Cells that are not in sight are
/// passed over.
#[inline(always)]
pub(crate) fn put_glyph(row: &mut [char], shift: usize, column: usize, c: char) -> usize
    requires { column < 2 ^ 62 }
    ensures row { row.new ≡ over row.old shift column (glyph column c) }
    ensures next { result ≡ column + length (glyph column c) }
    ensures few { result ≤ column + 12 }
{
    // Most characters are these, and walks along lines have the rest behind a call.
    if ' ' <= c && c < '\x7f' {
        put(row, shift, column, c);
        return column + 1;
    }
    put_rare(row, shift, column, c)
}

// The cells of a character that is neither visible ASCII nor a space.
fn put_rare(row: &mut [char], shift: usize, column: usize, c: char) -> usize
    requires column { column < 2 ^ 62 }
    requires rare { 32 ≤ c → 127 ≤ c }
    ensures row { row.new ≡ over row.old shift column (glyph column c) }
    ensures next { result ≡ column + length (glyph column c) }
    ensures few { result ≤ column + 12 }
{
    if c == '\t' {
        let count = 8 - column % 8;
        put_blanks(row, shift, column, count);
        column + count
    } else if c < ' ' {
        put(row, shift, column, '^');
        put(row, shift, column + 1, (c as u8 + 64) as char);
        column + 2
    } else if c == '\x7f' {
        put(row, shift, column, '^');
        put(row, shift, column + 1, '?');
        column + 2
    } else if own_columns(c) == 0 {
        put_escape(row, shift, column, c)
    } else {
        put_own(row, shift, column, c)
    }
}

// The cells of a character that is shown as itself.
fn put_own(row: &mut [char], shift: usize, column: usize, c: char) -> usize
    requires { column < 2 ^ 62 }
    ensures row { row.new ≡ over row.old shift column (own_cells c) }
    ensures next { result ≡ column + length (own_cells c) }
    ensures few { result ≤ column + 12 }
{
    put(row, shift, column, c);
    if own_columns(c) == 2 {
        put(row, shift, column + 1, RIGHT_HALF);
        return column + 2;
    }
    column + 1
}

fn put_escape(row: &mut [char], shift: usize, column: usize, c: char) -> usize
    requires { column < 2 ^ 62 }
    ensures row { row.new ≡ over row.old shift column (escape c) }
    ensures next { result ≡ column + length (escape c) }
    ensures few { result ≤ column + 12 }
{
    put(row, shift, column, '\\');
    put(row, shift, column + 1, 'u');
    put(row, shift, column + 2, '{');
    let at = put_hex(row, shift, column + 3, c as usize);
    put(row, shift, at, '}');
    at + 1
}

/// Writes the cells of characters, of which the first begins in a column of its line, into a row that shows the line from
/// column `shift` on, and tells the column after them. Cells that are not in sight are passed over.
pub(crate) fn put_chars(row: &mut [char], shift: usize, column: usize, chars: &[u8]) -> usize
    requires column { column < 2 ^ 32 }
    requires short { length chars.now < 2 ^ 32 }
    ensures row { row.new ≡ over row.old shift column (cells_from column chars.now) }
    ensures next { result ≡ column + length (cells_from column chars.now) }
    ensures few { result ≤ column + 12 * length chars.now }
{
    let mut at = column;
    for c in chars {
        at = put_glyph(row, shift, at, *c as char);
    }
    at
}

// How many characters, from the first on, are visible ASCII or spaces.
fn plain_len(chars: &[char]) -> usize
    ensures within { result ≤ length chars.now }
    ensures plain { All IsPrintable (take result chars.now) }
{
    for (i, c) in chars.iter().enumerate() {
        if *c < ' ' || '\x7f' <= *c {
            return i;
        }
    }
    chars.len()
}

// Writes characters into one cell each. Those that are not in sight are passed over.
fn put_plain(row: &mut [char], shift: usize, column: usize, chars: &[char])
    ensures { row.new ≡ over row.old shift column chars.now }
{
    let skip = shift.saturating_sub(column).min(chars.len());
    let first = column.saturating_sub(shift).min(row.len());
    let count = (chars.len() - skip).min(row.len() - first);
    row[first..first + count].copy_from_slice(&chars[skip..skip + count]);
}

// Writes the cells of some characters, from the first on: of those that are visible ASCII or spaces, or else of one. Tells
// how many they are, and the column after them.
fn put_some(row: &mut [char], shift: usize, column: usize, chars: &[char]) -> (usize, usize)
    requires some { 0 < length chars.now }
    requires column { column < 2 ^ 62 }
    requires short { length chars.now < 2 ^ 32 }
    ensures some { 0 < result.0 }
    ensures within { result.0 ≤ length chars.now }
    ensures row { row.new ≡ over row.old shift column (cells_from column (take result.0 chars.now)) }
    ensures next { result.1 ≡ column + length (cells_from column (take result.0 chars.now)) }
    ensures few { result.1 ≤ column + 12 * result.0 }
{
    let count = plain_len(chars);
    if count == 0 {
        return (1, put_glyph(row, shift, column, chars[0]));
    }
    put_plain(row, shift, column, &chars[..count]);
    (count, column + count)
}

/// Writes the cells of characters, of which the first begins in a column of its line, into a row that shows the line from
/// column `shift` on, and tells the column after them. Cells that are not in sight are passed over.
pub(crate) fn put_text(row: &mut [char], shift: usize, column: usize, chars: &[char]) -> usize
    requires column { column < 2 ^ 36 }
    requires short { length chars.now < 2 ^ 32 }
    ensures row { row.new ≡ over row.old shift column (cells_from column chars.now) }
    ensures next { result ≡ column + length (cells_from column chars.now) }
    ensures few { result ≤ column + 12 * length chars.now }
{
    let mut next = column;
    let mut at = 0;
    while at < chars.len() {
        let (count, behind) = put_some(row, shift, next, &chars[at..]);
        at += count;
        next = behind;
    }
    next
}

/// Writes the cells of the line that stands in `start..end` of a text into a row that shows it from column `shift` on,
/// and tells the column after them. Cells that are not in sight are passed over.
pub(crate) fn put_line<T: Text>(
    row: &mut [char],
    shift: usize,
    text: &T,
    start: usize,
    end: usize,
) -> usize
    requires order { start ≤ end }
    requires within { end ≤ length (T.text text.now) }
    requires short { length (T.text text.now) < 2 ^ 32 }
    ensures row { row.new ≡ over row.old shift 0 (cells (slice_range (T.text text.now) start end)) }
    ensures next { result ≡ length (cells (slice_range (T.text text.now) start end)) }
{
    let mut column = 0;
    let mut at = start;
    while at < end {
        let piece = text.piece(at);
        let count = piece.len().min(end - at);
        column = put_text(row, shift, column, &piece[..count]);
        at += count;
    }
    column
}

/// Writes a name, and tells the column after it, at most 32 further.
#[tactic(auto, using(crate::proofs::Plain::name_plain, crate::proofs::Plain::name_short))]
pub(crate) fn put_name(row: &mut [char], column: usize, name: &Name) -> usize
    requires { column < 2 ^ 62 }
    ensures wrote { Wrote row.old column name.now row.new result }
    ensures few { result ≤ column + 32 }
{
    put_bytes(row, column, name.as_bytes())
}
