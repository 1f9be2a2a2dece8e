ghost use Rattle.std.specs.Prelude.{◌≡◌, ◌≤◌};
ghost use Rattle.mgs_model.specs.Cells.{one_or_two, own_columns};

use unicode_width::UnicodeWidthChar;

/// What stands in the cell of a wide character's right half. No text is shown by it otherwise.
pub const RIGHT_HALF: char = '\0';

fn one_or_two(width: Option<usize>) -> usize
    ensures value { result ≡ one_or_two width }
    ensures few { result ≤ 2 }
{
    match width {
        Some(1) => 1,
        Some(2) => 2,
        Some(_) => 0,
        None => 0,
    }
}

/// The columns of a character past ASCII that is shown as itself, 1 or 2, and 0 where it is not.
#[tactic(auto, using(crate::proofs::OwnColumns::own_columns_ascii, crate::proofs::OwnColumns::own_columns_past))]
pub fn own_columns(c: char) -> usize
    ensures value { result ≡ own_columns c }
    ensures few { result ≤ 2 }
{
    if c < '\u{80}' {
        0
    } else {
        one_or_two(c.width())
    }
}
