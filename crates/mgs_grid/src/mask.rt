// What stands in place of a text that may not be read.
ghost use Rattle.std.specs.Prelude.{◌≡◌, ◌+◌, ◌<◌, ◌≤◌, ◌^◌};
ghost use Rattle.mgs_model.specs.Rows.{cause_text, unread_text};
ghost use Rattle.mgs_grid.specs.Cells.{Wrote};

use crate::cells::{put_bytes, put_decimal};
use mgs_model::Decision;

// Why a text may not be read.
pub(crate) fn put_cause(row: &mut [char], column: usize, decision: Decision) -> usize
    requires { column < 2 ^ 60 }
    ensures wrote { Wrote row.old column (cause_text decision) row.new result }
    ensures few { result ≤ column + 64 }
{
    match decision {
        Decision::Granted => column,
        Decision::DeniedBy { entry, .. } => {
            let at = put_bytes(row, column, b"entry ");
            put_decimal(row, at, entry)
        }
        Decision::NotGranted { .. } => put_bytes(row, column, b"no entry"),
    }
}

/// Writes what stands in place of a text that may not be read, from column 0 on, and tells the column after it, at
/// most 128.
pub(crate) fn put_unread(row: &mut [char], decision: Decision) -> usize
    ensures wrote { Wrote row.old 0 (unread_text decision) row.new result }
    ensures few { result ≤ 128 }
{
    let start = put_bytes(row, 0, b"[no read: ");
    let end = put_cause(row, start, decision);
    put_bytes(row, end, b"]")
}
