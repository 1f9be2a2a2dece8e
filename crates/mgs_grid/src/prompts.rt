// The last row where it waits for keys: a prompt, a search, a query-replace.
ghost use Rattle.std.specs.Prelude.{◌≡◌, ◌<◌, ◌^◌, ◌++◌, length, codes};
ghost use Rattle.mgs_model.specs.Cells.{cells};
ghost use Rattle.mgs_model.specs.Prompts.{prompt_line, search_text};
ghost use Rattle.mgs_grid.specs.Cells.{over};

use crate::cells::{put_chars, put_text};
use mgs_model::{Direction, Question};

/// Writes the cells of a prompt's line into a row that shows the line from column `shift` on, and tells the column after
/// them: the prompt and, behind it, what was typed. Cells that are not in sight are passed over.
pub(crate) fn put_prompt(
    row: &mut [char],
    shift: usize,
    question: Question,
    input: &[char],
) -> usize
    requires short { length input.now < 2 ^ 32 }
    ensures row { row.new ≡ over row.old shift 0 (cells (prompt_line question input.now)) }
    ensures next { result ≡ length (cells (prompt_line question input.now)) }
    ensures few { result < 2 ^ 40 }
{
    let start = put_chars(row, shift, 0, question.asking().text);
    put_text(row, shift, start, input)
}

/// How many cells a prompt's line has.
pub(crate) fn prompt_width(question: Question, input: &[char]) -> usize
    requires short { length input.now < 2 ^ 32 }
    ensures width { result ≡ length (cells (prompt_line question input.now)) }
    ensures few { result < 2 ^ 40 }
{
    put_prompt(&mut [], 0, question, input)
}

fn search_text(direction: Direction, failing: bool) -> &'static [u8]
    ensures { result.now ≡ search_text direction failing }
{
    match direction {
        Direction::Forward => {
            if failing {
                b"Failing I-search: "
            } else {
                b"I-search: "
            }
        }
        Direction::Backward => {
            if failing {
                b"Failing I-search backward: "
            } else {
                b"I-search backward: "
            }
        }
    }
}

/// Writes the cells of a search's line into a row that shows the line from column `shift` on, and tells the column after
/// them: which way it goes, whether it found nothing, and what it looks for. Cells that are not in sight are passed over.
pub(crate) fn put_search(
    row: &mut [char],
    shift: usize,
    direction: Direction,
    failing: bool,
    pattern: &[char],
) -> usize
    requires short { length pattern.now < 2 ^ 32 }
    ensures row { row.new ≡ over row.old shift 0 (cells (search_text direction failing ++ pattern.now)) }
    ensures next { result ≡ length (cells (search_text direction failing ++ pattern.now)) }
    ensures few { result < 2 ^ 40 }
{
    let start = put_chars(row, shift, 0, search_text(direction, failing));
    put_text(row, shift, start, pattern)
}

/// Writes the cells of a query-replace's line into a row that shows the line from column `shift` on, and tells the column after
/// them. Cells that are not in sight are passed over.
pub(crate) fn put_replacing(row: &mut [char], shift: usize) -> usize
    ensures row { row.new ≡ over row.old shift 0 (cells (codes "Replace? ")) }
    ensures next { result ≡ length (cells (codes "Replace? ")) }
    ensures few { result < 2 ^ 40 }
{
    put_chars(row, shift, 0, b"Replace? ")
}

/// How many cells a search's line has.
pub(crate) fn search_width(direction: Direction, failing: bool, pattern: &[char]) -> usize
    requires short { length pattern.now < 2 ^ 32 }
    ensures width { result ≡ length (cells (search_text direction failing ++ pattern.now)) }
    ensures few { result < 2 ^ 40 }
{
    put_search(&mut [], 0, direction, failing, pattern)
}

/// How many cells a query-replace's line has.
pub(crate) fn replacing_width() -> usize
    ensures width { result ≡ length (cells (codes "Replace? ")) }
    ensures few { result < 2 ^ 40 }
{
    put_replacing(&mut [], 0)
}
