// Whether two grids show the same.
ghost use Rattle.std.specs.Prelude.{◌≡◌, ◌&&◌};
ghost use Rattle.std.specs.Cmp.Lexicographic.{pointwise};
ghost use Rattle.mgs_engine.specs.Slow.{same_row, same_picture};

use mgs_grid::{Grid, Line};

fn same_row(a: &Line, b: &Line) -> bool
    ensures { result ≡ same_row a.now b.now }
{
    a.is_reversed() == b.is_reversed() && a.text() == b.text()
}

#[tactic(auto, using(crate::proofs::Pictures::same_lengths, crate::proofs::Pictures::same_from))]
fn same_rows(a: &[Line], b: &[Line]) -> bool
    ensures { result ≡ pointwise same_row a.now b.now }
{
    if a.len() != b.len() {
        return false;
    }
    for (i, line) in a.iter().enumerate() {
        if !same_row(line, &b[i]) {
            return false;
        }
    }
    true
}

/// Whether two grids have the same size, rows and cursor.
pub(crate) fn same_grid(a: &Grid, b: &Grid) -> bool
    ensures { result ≡ same_picture a.now b.now }
{
    let size = a.rows() == b.rows() && a.cols() == b.cols();
    let (row, col) = a.cursor();
    let (other_row, other_col) = b.cursor();
    size && (row == other_row && col == other_col) && same_rows(a.lines(), b.lines())
}
