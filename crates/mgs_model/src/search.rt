// The words for an incremental search.

/// Which way a search goes through a text.
#[derive(Clone, Copy, PartialEq, Eq)]
pub enum Direction {
    /// To the text's end.
    Forward,
    /// To the text's start.
    Backward,
}

/// The positions of an incremental search: where it began, where it looks from, and the point.
#[derive(Clone, Copy, PartialEq, Eq)]
pub struct SearchPlaces {
    /// Where C-g takes the point back to, in characters before it.
    pub origin: usize,
    /// Where the last match begins, and at first the origin.
    pub anchor: usize,
    /// The point: behind the last match, or backward at its start.
    pub point: usize,
}

/// What is to be done after a byte of an incremental search.
#[derive(Clone, Copy, PartialEq, Eq)]
pub enum SearchStep {
    /// Nothing.
    Stays,
    /// It looks for the pattern from its anchor on, which counts.
    FromAnchor,
    /// It looks for the pattern from its anchor on, which does not count.
    PastAnchor,
    /// Its anchor is its origin again, and it looks for the pattern from there on, which counts.
    FromOrigin,
    /// Its anchor is its origin again, and so is the point.
    ToOrigin,
    /// It ends where it is.
    Ends,
    /// It is given up, and the point is its origin.
    Quits,
    /// It ends where it is, and the byte is a key.
    Leaves,
}
