// The screen of an open session.
ghost use Rattle.std.specs.Prelude.{◌≡◌, [], IfOk};
ghost use Rattle.mgs_model.specs.Picture.{IsSize};

use crate::queue::ByteQueue;
use mgs_grid::Grid;
use mgs_model::{SessionId, Short};
use mgs_screen::DrawnTexts;
use std::alloc::Global;

/// What a session's terminal shows, a grid to draw into, which texts are drawn in it, and the bytes that wait for the terminal. Between
/// events both grids are the same.
#[derive(Drop)]
pub(crate) struct Screen {
    /// The session.
    pub(crate) id: SessionId,
    /// What the terminal shows once the bytes that wait were written to it.
    pub(crate) shown: Grid,
    /// What is drawn next, in the same size.
    pub(crate) next: Grid,
    /// The texts that `next` shows.
    pub(crate) drawn_texts: DrawnTexts,
    /// The bytes that wait.
    pub(crate) queue: ByteQueue,
    /// Within an event: the screen changed, and was not painted, since the queue may not have the room. Its session is
    /// then ended.
    pub(crate) late: bool,
}

impl Screen {
    ghost use Rattle.mgs_engine.specs.Screens.{IsOnTime, IsSessionScreen};

    /// A blank screen of so many rows (6 to 64) and columns (20 to 160), which no session has yet: no text is drawn, no bytes wait, and
    /// the id is to be set. `Short`: memory was refused.
    pub(crate) fn blank(alloc: Global, rows: usize, cols: usize) -> Result<Screen, Short>
        requires { IsSize rows cols }
        ensures screen { IfOk result IsSessionScreen }
        ensures rows { IfOk result (λ x. x.shown.rows ≡ rows) }
        ensures cols { IfOk result (λ x. x.shown.cols ≡ cols) }
        ensures level { IfOk result (λ x. x.next ≡ x.shown) }
        ensures untold { IfOk result (λ x. x.drawn_texts ≡ []) }
        ensures empty { IfOk result (λ x. x.queue ≡ []) }
        ensures on_time { IfOk result IsOnTime }
    {
        let shown = Grid::new(alloc, rows, cols)?;
        let next = Grid::new(alloc, rows, cols)?;
        let queue = ByteQueue::new(alloc)?;
        Ok(Screen {
            id: 0,
            shown,
            next,
            drawn_texts: DrawnTexts::new(),
            queue,
            late: false,
        })
    }
}
