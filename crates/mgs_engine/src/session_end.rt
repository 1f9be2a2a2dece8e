// How sessions end.

/// How a session ended.
#[derive(Clone, Copy, PartialEq, Eq)]
pub enum Cause {
    /// By a byte of its own.
    Quit,
    /// By a call of `close`.
    Closed,
    /// It fell behind: its screen changed, and what waited for its terminal left no room for the paint.
    Slow,
}
