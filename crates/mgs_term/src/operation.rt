/// An operation of a terminal, told by one sequence of a VT100. Rows and columns are counted from 0.
#[derive(Clone, Copy, PartialEq, Eq)]
pub enum Operation {
    /// `ESC [ r ; c H`: the cursor goes to a row and a column, which the sequence counts from 1.
    Goto(usize, usize),
    /// `ESC [ 2 J`: every cell is a blank.
    Clear,
    /// `ESC [ K`: the cells from the cursor to the end of its row are blanks.
    Erase,
    /// `ESC [ 7 m`: what is printed from now on is in reverse.
    Reverse,
    /// `ESC [ m`: what is printed from now on is plain.
    Plain,
    /// `ESC [ ? 7 l`: the cursor stays in the last column.
    Unwrap,
    /// A character of 0x20 to 0x7E, or one past ASCII of one column or two, once wrap is off: it fills as many cells from the
    /// cursor's on, and the cursor goes as many columns on.
    Print(char),
}
