/// One cell of a terminal's screen: a character that is shown as itself, and whether that is in reverse. Behind a character of
/// two columns stands `RIGHT_HALF`.
#[derive(Clone, Copy, PartialEq, Eq)]
pub struct Cell {
    /// What stands in the cell: a space where nothing does.
    pub character: char,
    /// Whether light and dark are exchanged.
    pub reversed: bool,
}

impl Cell {
    /// An erased cell: a plain space.
    pub const BLANK: Cell = Cell {
        character: ' ',
        reversed: false,
    };
}
