// The bytes of each operation. Each call needs room for what it appends, and takes no memory.
ghost use Rattle.std.specs.Prelude.{◌≡◌, ◌+◌, ◌*◌, ◌<◌, ◌≤◌, ◌++◌, [], ◌∷◌, length, vec_len, vec_capacity, cond, encode_utf8};
ghost use Rattle.mgs_term.specs.Sequences.{number, spelling};
ghost use Rattle.mgs_term.specs.declared.operation.Operation.TheVariants.{Goto, Erase, Reverse, Plain, Unwrap};
ghost use Rattle.mgs_paint.specs.Operations.{bytes_of, prints, row_operations};
ghost use Rattle.mgs_model.specs.declared.limits.TheConstants.{ROWS_MAX};

use itoa::Buffer;
use mgs_grid::Line;
use mgs_model::RIGHT_HALF;

fn put_bytes(out: &mut Vec<u8>, bytes: &[u8])
    requires { vec_len out.old + length bytes.now ≤ vec_capacity out.old }
    ensures items { out.new.items ≡ out.old.items ++ bytes.now }
    ensures capacity { vec_capacity out.new ≡ vec_capacity out.old }
    ensures len { vec_len out.new ≡ vec_len out.old + length bytes.now }
{
    for byte in bytes {
        out.push_reserved(*byte);
    }
}

/// A number below 1000 in decimal, without leading zeros.
#[tactic(auto, using(crate::proofs::Numbers::number_in_decimal, crate::proofs::Numbers::number_short, crate::proofs::Numbers::number_shorter))]
pub fn put_number(out: &mut Vec<u8>, n: usize)
    requires small { n < 1000 }
    requires room { vec_len out.old + 3 ≤ vec_capacity out.old }
    ensures items { out.new.items ≡ out.old.items ++ number n }
    ensures capacity { vec_capacity out.new ≡ vec_capacity out.old }
    ensures len { vec_len out.new ≤ vec_len out.old + 3 }
    ensures two { n < 100 → vec_len out.new ≤ vec_len out.old + 2 }
{
    put_bytes(out, Buffer::new().format(n).as_bytes());
}

/// `ESC [ r ; c H`, for a row and a column from 0, below 99 and 999.
pub fn put_goto(out: &mut Vec<u8>, row: usize, col: usize)
    requires row { row < 99 }
    requires col { col < 999 }
    requires room { vec_len out.old + 9 ≤ vec_capacity out.old }
    ensures items { out.new.items ≡ out.old.items ++ spelling (Goto row col) }
    ensures capacity { vec_capacity out.new ≡ vec_capacity out.old }
    ensures len { vec_len out.new ≤ vec_len out.old + 9 }
{
    put_bytes(out, b"\x1b[");
    put_number(out, row + 1);
    out.push_reserved(b';');
    put_number(out, col + 1);
    out.push_reserved(b'H');
}

/// `ESC [ 7 m` or `ESC [ m`: what follows is in reverse or plain.
pub fn put_reverse(out: &mut Vec<u8>, reversed: bool)
    requires room { vec_len out.old + 4 ≤ vec_capacity out.old }
    ensures items { out.new.items ≡ out.old.items ++ spelling (cond reversed Reverse Plain) }
    ensures capacity { vec_capacity out.new ≡ vec_capacity out.old }
    ensures len { vec_len out.new ≤ vec_len out.old + 4 }
{
    put_bytes(out, if reversed { b"\x1b[7m" } else { b"\x1b[m" });
}

/// `ESC [ ? 7 l`: the cursor stays in the last column.
pub fn put_unwrap(out: &mut Vec<u8>)
    requires room { vec_len out.old + 5 ≤ vec_capacity out.old }
    ensures items { out.new.items ≡ out.old.items ++ spelling Unwrap }
    ensures capacity { vec_capacity out.new ≡ vec_capacity out.old }
    ensures len { vec_len out.new ≤ vec_len out.old + 5 }
{
    put_bytes(out, b"\x1b[?7l");
}

/// `ESC [ m`: what follows is plain.
pub fn put_plain_on(out: &mut Vec<u8>)
    requires room { vec_len out.old + 3 ≤ vec_capacity out.old }
    ensures items { out.new.items ≡ out.old.items ++ spelling Plain }
    ensures capacity { vec_capacity out.new ≡ vec_capacity out.old }
    ensures len { vec_len out.new ≤ vec_len out.old + 3 }
{
    put_bytes(out, b"\x1b[m");
}

// A character in UTF-8. Most are ASCII, and are their own byte.
fn put_char(out: &mut Vec<u8>, c: char)
    requires room { vec_len out.old + 4 ≤ vec_capacity out.old }
    ensures items { out.new.items ≡ out.old.items ++ encode_utf8 c }
    ensures capacity { vec_capacity out.new ≡ vec_capacity out.old }
    ensures len { vec_len out.new ≤ vec_len out.old + 4 }
{
    if c < '\u{80}' {
        out.push_reserved(c as u8);
        return;
    }
    let mut bytes = [0; 4];
    put_bytes(out, c.encode_utf8(&mut bytes).as_bytes());
}

/// The characters of cells. Behind a wide character stands its right half, which has no bytes of its own.
pub fn put_text(out: &mut Vec<u8>, text: &[char])
    requires room { vec_len out.old + 4 * length text.now ≤ vec_capacity out.old }
    ensures items { out.new.items ≡ out.old.items ++ bytes_of (prints text.now) }
    ensures capacity { vec_capacity out.new ≡ vec_capacity out.old }
    ensures len { vec_len out.new ≤ vec_len out.old + 4 * length text.now }
{
    for c in text {
        put_shown(out, *c);
    }
}

// What a cell adds.
fn put_shown(out: &mut Vec<u8>, c: char)
    requires room { vec_len out.old + 4 ≤ vec_capacity out.old }
    ensures items { out.new.items ≡ out.old.items ++ bytes_of (prints (c ∷ [])) }
    ensures capacity { vec_capacity out.new ≡ vec_capacity out.old }
    ensures len { vec_len out.new ≤ vec_len out.old + 4 }
{
    if c != RIGHT_HALF {
        put_char(out, c);
    }
}

/// One row, from its first column on.
pub fn put_row(out: &mut Vec<u8>, row: usize, line: &Line)
    requires row { row < ROWS_MAX }
    requires room { vec_len out.old + 13 + 4 * length line.now.text ≤ vec_capacity out.old }
    ensures items { out.new.items ≡ out.old.items ++ bytes_of (row_operations row line.now) }
    ensures capacity { vec_capacity out.new ≡ vec_capacity out.old }
    ensures len { vec_len out.new ≤ vec_len out.old + 13 + 4 * length line.now.text }
{
    put_goto(out, row, 0);
    put_reverse(out, line.is_reversed());
    put_text(out, line.text());
}

/// `ESC [ K`: the cells from the cursor to the end of its row are blanks.
pub fn put_erase(out: &mut Vec<u8>)
    requires room { vec_len out.old + 3 ≤ vec_capacity out.old }
    ensures items { out.new.items ≡ out.old.items ++ spelling Erase }
    ensures capacity { vec_capacity out.new ≡ vec_capacity out.old }
    ensures len { vec_len out.new ≤ vec_len out.old + 3 }
{
    put_bytes(out, b"\x1b[K");
}
