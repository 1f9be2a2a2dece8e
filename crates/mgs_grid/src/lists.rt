// Rows of the listing of all buffers and of an access list, and their mode lines, written into a row.
ghost use Rattle.std.specs.Prelude.{◌≡◌, ◌+◌, ◌<◌, ◌≤◌, ◌^◌, [], ◌∷◌, ◌++◌, length, replicate, decimal, codes, All};
ghost use Rattle.mgs_model.specs.Picture.{IsPrintable};
ghost use Rattle.mgs_model.specs.Rows.{cause_text};
ghost use Rattle.mgs_model.specs.Draw.{right_in, flag_of, owners_text, listing_text};
ghost use Rattle.mgs_grid.specs.Cells.{Wrote};
ghost use Rattle.mgs_grid.specs.Lists.{acl_mode};

use crate::cells::{put_blanks, put_bytes, put_decimal, put_name};
use crate::mask::put_cause;
use mgs_model::{Decision, Name, Owners};

fn put_spaces(row: &mut [char], column: usize, count: usize) -> usize
    requires { column + count < 2 ^ 64 }
    ensures wrote { Wrote row.old column (replicate count 32) row.new result }
    ensures next { result ≡ column + count }
{
    put_blanks(row, 0, column, count);
    column + count
}

// A number to the right in seven places.
fn put_size(row: &mut [char], column: usize, size: usize) -> usize
    requires { column < 2 ^ 60 }
    ensures wrote { Wrote row.old column (right_in 7 (decimal size)) row.new result }
    ensures few { result ≤ column + 27 }
{
    let width = put_decimal(&mut [], 0, size);
    let at = put_spaces(row, column, 7usize.saturating_sub(width));
    put_decimal(row, at, size)
}

fn put_flag(row: &mut [char], modified: bool) -> usize
    ensures wrote { Wrote row.old 0 (flag_of modified ∷ 32 ∷ []) row.new result }
    ensures next { result ≡ 2 }
{
    if modified {
        put_bytes(row, 0, b"* ")
    } else {
        put_bytes(row, 0, b"  ")
    }
}

// Writes who owns a buffer: the owner, and behind a colon the owning group, where there is one.
fn put_owners(row: &mut [char], column: usize, owners: &Owners) -> usize
    requires { column < 2 ^ 61 }
    ensures { Wrote row.old column (owners_text owners.now) row.new result }
{
    let end = put_name(row, column, &owners.owner);
    match &owners.group {
        None => end,
        Some(group) => {
            let at_group = put_bytes(row, end, b":");
            put_name(row, at_group, group)
        }
    }
}

/// Writes a row of the listing of all buffers from column 0 on, and tells the column after it: whether the buffer is
/// modified, its size, its name and its owners.
pub(crate) fn put_listed(
    row: &mut [char],
    modified: bool,
    size: usize,
    name: &Name,
    owners: &Owners,
) -> usize
    ensures { Wrote row.old 0 (listing_text (record { name = name.now; modified = modified; size = size; owners = owners.now })) row.new result }
{
    let at_size = put_flag(row, modified);
    let end = put_size(row, at_size, size);
    let at_name = put_bytes(row, end, b" ");
    let end = put_name(row, at_name, name);
    let at_owners = put_bytes(row, end, b" ");
    put_owners(row, at_owners, owners)
}

/// Writes a row of an access list from column 0 on, and tells the column after it: the entry's number and the entry as it
/// is printed.
#[tactic(auto, using(crate::proofs::Plain::printable_plain))]
pub(crate) fn put_entry(row: &mut [char], number: usize, entry: &[u8]) -> usize
    requires short { length entry.now < 2 ^ 32 }
    requires printable { All IsPrintable entry.now }
    ensures { Wrote row.old 0 (decimal number ++ 32 ∷ entry.now) row.new result }
{
    let end = put_decimal(row, 0, number);
    let at_entry = put_bytes(row, end, b" ");
    put_bytes(row, at_entry, entry)
}

/// Writes what stands in place of an access list that may not be read, from column 0 on, and tells the column after it.
pub(crate) fn put_unlisted(row: &mut [char], decision: Decision) -> usize
    ensures { Wrote row.old 0 (codes "[no acl: " ++ cause_text decision ++ codes "]") row.new result }
{
    let start = put_bytes(row, 0, b"[no acl: ");
    let end = put_cause(row, start, decision);
    put_bytes(row, end, b"]")
}

/// Writes the mode line of an access list from column 0 on, and tells the column after it: the buffer's name. `None`
/// stands for what may not be told.
pub(crate) fn put_acl_mode(row: &mut [char], name: Option<Name>) -> usize
    ensures { Wrote row.old 0 (acl_mode name) row.new result }
{
    match name {
        None => put_bytes(row, 0, b"-Acl-?"),
        Some(name) => {
            let at = put_bytes(row, 0, b"-Acl-");
            put_name(row, at, &name)
        }
    }
}
