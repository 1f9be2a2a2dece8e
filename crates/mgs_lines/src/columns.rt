// Columns of a line, counted character by character.
ghost use Rattle.std.specs.Prelude.{◌≡◌, ◌+◌, ◌-◌, ◌*◌, ◌<◌, ◌≤◌, ◌^◌, length, slice_range, take, drop, true, All};
ghost use Rattle.mgs_model.specs.Cells.{cells_from, IsPrintable};

use crate::width;
use mgs_text::Text;

// So many characters at most are looked at together.
const RUN: usize = 128;

// Whether a character and all before it are visible ASCII or spaces.
fn stays_plain(plain: bool, c: char) -> bool
    ensures before { result ≡ true → plain ≡ true }
    ensures here { result ≡ true → IsPrintable c }
{
    plain && ' ' <= c && c <= '~'
}

// Whether all characters are visible ASCII or spaces, which take one cell wherever they stand. It looks at each, whatever
// the ones before it are, so that the machine can take some at once.
fn are_plain(chars: &[char]) -> bool
    ensures { result ≡ true → All IsPrintable chars.now }
{
    let mut plain = true;
    for c in chars {
        plain = stays_plain(plain, *c);
    }
    plain
}

// The column behind characters of a line, of which the first begins in a column.
fn column_behind(column: usize, chars: &[char]) -> usize
    requires { column + 12 * length chars.now < 2 ^ 64 }
    ensures value { result ≡ column + length (cells_from column chars.now) }
    ensures few { result ≤ column + 12 * length chars.now }
{
    if are_plain(chars) {
        return column + chars.len();
    }
    let mut at = column;
    for c in chars {
        at += width(at, *c);
    }
    at
}

// The column behind the first `count` characters of a piece, of which the first begins in a column.
fn column_in(column: usize, piece: &[char], count: usize) -> usize
    requires within { count ≤ length piece.now }
    requires short { column + 12 * count < 2 ^ 64 }
    ensures value { result ≡ column + length (cells_from column (take count piece.now)) }
    ensures few { result ≤ column + 12 * count }
{
    column_behind(column, &piece[..count])
}

// How many characters at the start of a run are visible ASCII or spaces.
fn plain_start(run: &[char]) -> usize
    ensures within { result ≤ length run.now }
    ensures plain { All IsPrintable (take result run.now) }
{
    for i in 0..run.len() {
        if !stays_plain(true, run[i]) {
            return i;
        }
    }
    run.len()
}

// How many characters from a position on are visible ASCII or spaces, as far as they are looked at: `most` of them at most. 0: there is none.
pub(crate) fn plain_from<T: Text>(text: &T, at: usize, most: usize) -> usize
    requires { at ≤ length (T.text text.now) }
    ensures few { result ≤ most }
    ensures within { at + result ≤ length (T.text text.now) }
    ensures plain { All IsPrintable (take result (drop at (T.text text.now))) }
{
    let piece = text.piece(at);
    let run = &piece[..piece.len().min(RUN).min(most)];
    // Where the first is none, no more is looked at.
    if run.is_empty() || !stays_plain(true, run[0]) {
        return 0;
    }
    if are_plain(run) {
        return run.len();
    }
    plain_start(run)
}

/// The column of a position `p`, counted from one before it on: `from`, which is in the column `column`.
pub fn column_from<T: Text>(text: &T, from: usize, column: usize, p: usize) -> usize
    requires order { from ≤ p }
    requires within { p ≤ length (T.text text.now) }
    requires short { column + 12 * (p - from) < 2 ^ 64 }
    ensures value { result ≡ column + length (cells_from column (slice_range (T.text text.now) from p)) }
    ensures few { result ≤ column + 12 * (p - from) }
{
    let mut at = column;
    let mut i = from;
    while i < p {
        let piece = text.piece(i);
        let count = piece.len().min(p - i).min(RUN);
        at = column_in(at, piece, count);
        i += count;
    }
    at
}
