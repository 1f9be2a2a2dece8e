// Terminals, grids and paints.
ghost use Rattle.std.specs.Prelude.{◌≤◌, ◌+◌, IfOk, vec_capacity, vec_len};
ghost use Rattle.mgs_paint.specs.Painting.{bound_of};

use mgs_grid::Grid;
use mgs_model::Short;
use mgs_paint::{bound, first, paint};
use mgs_term::{Cell, OutOfProfile, Term};
use std::alloc::Global;

const ROWS: usize = 6;

const COLS: usize = 20;

// Feeds a terminal with what paints a grid, and then with what changes it into another.
pub(crate) fn use_screen(alloc: Global) -> Result<(usize, usize), Short> {
    let mut term: Term = Term::new(alloc, ROWS, COLS)?;
    let old: Grid = Grid::new(alloc, ROWS, COLS)?;
    let mut new: Grid = Grid::new(alloc, ROWS, COLS)?;
    new.draw_none_mode(4);
    let mut out = room(alloc)?;
    first(&old, &mut out);
    feed_all(&mut term, &out);
    let mut out = room(alloc)?;
    paint(&old, &new, &mut out);
    feed_all(&mut term, &out);
    let cells: &[Cell] = term.grid();
    let _count = cells.len();
    Ok(term.cursor())
}

// Room for one paint.
fn room(alloc: Global) -> Result<Vec<u8>, Short>
    ensures { IfOk result (λ out. vec_len out + bound_of 6 20 ≤ vec_capacity out) }
{
    match Vec::with_capacity(alloc, bound(ROWS, COLS)) {
        Ok(out) => Ok(out),
        Err(_) => Err(Short),
    }
}

fn feed_all(term: &mut Term, bytes: &[u8]) {
    for byte in bytes {
        let _fed: Result<(), OutOfProfile> = term.feed(*byte);
    }
}
