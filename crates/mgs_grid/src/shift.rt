// The column from which a line is shown.
ghost use Rattle.std.specs.Prelude.{◌≡◌, ◌+◌, ◌-◌, ◌<◌, ◌≤◌};
ghost use Rattle.mgs_model.specs.Rows.{shift_for};

/// A row of a text, and the column from which it is shown.
#[derive(Clone, Copy)]
pub struct ShiftedRow {
    /// Which of the text's rows, from the first one that is shown.
    pub row: usize,
    /// The column, 0 where the row is shown from its start.
    pub shift: usize,
}

/// The column from which a row of `cols` columns shows the line of the point, so that the point, in
/// `column`, is in sight: 0 where the line's start and the point fit, and else a multiple of half the width.
/// Neither the first nor the last cell of a row that holds a `$` is then the point's.
pub fn shift_for(cols: usize, column: usize) -> usize
    requires { 20 ≤ cols }
    ensures value { result ≡ shift_for cols column }
    ensures behind { result ≤ column }
    ensures in_sight { column < result + (cols - 1) }
    ensures first { 0 < result → result < column }
{
    if column < cols - 1 {
        return 0;
    }
    let half = (cols - 2) / 2;
    (column / half - 1) * half
}
