// Prints the screens of sessions, refused opens and ended sessions.
ghost use Rattle.std.specs.Prelude.{◌≡◌, ◌++◌, ◌∷◌, [], OnOk, decimal};
ghost use Rattle.mgs_replay.specs.Prints.{edge_of, cell_bytes, characters, row_text, rows_text, screen_text, refusal_text, ended_text, fault_text, ended_by_text};

use crate::client::Cause;
use itoa::Buffer;
use mgs_model::{Name, OpenFault, RIGHT_HALF};
use mgs_term::{Cell, Term};
use std::alloc::AllocError;

fn push_word(out: &mut Vec<u8>, word: &[u8], end: u8) -> Result<(), AllocError>
    ensures { OnOk result (out.new.items ≡ out.old.items ++ (word.now ++ end ∷ [])) }
{
    out.extend_from_slice(word)?;
    out.push(end)?;
    Ok(())
}

// A number without leading zeros.
fn push_number(out: &mut Vec<u8>, n: usize) -> Result<(), AllocError>
    ensures { OnOk result (out.new.items ≡ out.old.items ++ decimal n) }
{
    out.extend_from_slice(Buffer::new().format(n).as_bytes())
}

fn number_and_name(fault: OpenFault) -> &'static [u8]
    ensures { result.now ≡ fault_text fault }
{
    match fault {
        OpenFault::NoUser => b"1 NoUser",
        OpenFault::Size => b"2 Size",
        OpenFault::Full => b"3 Full",
        OpenFault::Short => b"4 Short",
    }
}

/// The line of a refused open.
pub(crate) fn print_refusal(
    out: &mut Vec<u8>,
    label: &Name,
    fault: OpenFault,
) -> Result<(), AllocError>
    ensures { OnOk result (out.new.items ≡ out.old.items ++ refusal_text label.now fault) }
{
    out.extend_from_slice(b"refused ")?;
    push_word(out, label.as_bytes(), b' ')?;
    push_word(out, number_and_name(fault), b'\n')
}

fn cause_name(cause: Cause) -> &'static [u8]
    ensures { result.now ≡ ended_by_text cause }
{
    match cause {
        Cause::Quit => b"Quit",
        Cause::Closed => b"Closed",
    }
}

/// The line of a session that ended.
pub(crate) fn print_ended(out: &mut Vec<u8>, label: &Name, cause: Cause) -> Result<(), AllocError>
    ensures { OnOk result (out.new.items ≡ out.old.items ++ ended_text label.now cause) }
{
    out.extend_from_slice(b"ended ")?;
    push_word(out, label.as_bytes(), b' ')?;
    push_word(out, cause_name(cause), b'\n')
}

// What stands on both sides of a row: whether its first cell is reversed.
fn edge(cells: &[Cell]) -> u8
    ensures { result ≡ edge_of cells.now }
{
    match cells {
        [first, ..] if first.reversed => b'!',
        _ => b'|',
    }
}

// The character of a cell. A wide one was pushed with its left half.
fn push_cell(out: &mut Vec<u8>, cell: &Cell) -> Result<(), AllocError>
    ensures { OnOk result (out.new.items ≡ out.old.items ++ cell_bytes cell.now) }
{
    if cell.character == RIGHT_HALF {
        return Ok(());
    }
    let mut bytes = [0; 4];
    out.extend_from_slice(cell.character.encode_utf8(&mut bytes).as_bytes())
}

fn push_cells(out: &mut Vec<u8>, cells: &[Cell]) -> Result<(), AllocError>
    ensures { OnOk result (out.new.items ≡ out.old.items ++ characters cells.now) }
{
    for cell in cells {
        push_cell(out, cell)?;
    }
    Ok(())
}

fn print_row(out: &mut Vec<u8>, cells: &[Cell]) -> Result<(), AllocError>
    ensures { OnOk result (out.new.items ≡ out.old.items ++ row_text cells.now) }
{
    let edge = edge(cells);
    out.push(edge)?;
    push_cells(out, cells)?;
    out.push(edge)?;
    out.push(b'\n')?;
    Ok(())
}

fn print_rows(out: &mut Vec<u8>, rows: usize, cols: usize, cells: &[Cell]) -> Result<(), AllocError>
    ensures { OnOk result (out.new.items ≡ out.old.items ++ rows_text rows cols cells.now) }
{
    let mut left = cells;
    for _ in 0..rows {
        let (row, below) = left.split_at(cols.min(left.len()));
        print_row(out, row)?;
        left = below;
    }
    Ok(())
}

/// The lines of a session's screen: its label, each row between two `|`, or two `!` where its first cell is reversed,
/// and the cursor's row and column, counted from 1.
pub(crate) fn print_screen(out: &mut Vec<u8>, label: &Name, term: &Term) -> Result<(), AllocError>
    ensures { OnOk result (out.new.items ≡ out.old.items ++ screen_text label.now term.now.screen) }
{
    out.extend_from_slice(b"screen ")?;
    push_word(out, label.as_bytes(), b'\n')?;
    print_rows(out, term.rows(), term.cols(), term.grid())?;
    let (row, col) = term.cursor();
    out.extend_from_slice(b"cursor ")?;
    push_number(out, row)?;
    out.push(b' ')?;
    push_number(out, col)?;
    out.push(b'\n')?;
    Ok(())
}
