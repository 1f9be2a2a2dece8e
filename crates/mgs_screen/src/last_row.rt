// The last row of a screen, and the cursor.
ghost use Rattle.std.specs.Prelude.{◌≡◌, ◌<◌, [], ◌∷◌, None, true, length};
ghost use Rattle.mgs_model.specs.Rows.{is_silent, plain_row};
ghost use Rattle.mgs_grid.specs.Cells.{rows_put};
ghost use Rattle.mgs_grid.specs.Panes.{with_rows};
ghost use Rattle.mgs_model.specs.declared.echo_text.Message.TheVariants.{Says};
ghost use Rattle.mgs_model.specs.declared.echo_text.Notice.TheVariants.{Silent};
ghost use Rattle.mgs_model.specs.declared.session.Mode.TheVariants.{Plain};
ghost use Rattle.mgs_world.specs.Worlds.{input_in, mode_in, state_of};
ghost use Rattle.mgs_screen.specs.Canvas.{IsDrawnOn, IsLastRow};
ghost use Rattle.mgs_screen.specs.Screens.{IsAtRest, prompt_drawn, last_row_drawn, row_in_mode, search_drawn};

use mgs_grid::{Grid, Line, RowSet};
use mgs_mini::Prompt;
use mgs_model::{Message, Notice, ROWS_MAX};
use mgs_session::{Aim, State};

fn is_silent(message: &Message) -> bool
    ensures { result ≡ is_silent message.now }
{
    matches!(message, Message::Says(Notice::Silent))
}

/// Draws the line of a prompt, and puts the cursor behind it.
fn draw_prompt(prompt: &Prompt, row: usize, grid: &mut Grid)
    requires { row < grid.old.rows }
    ensures { grid.new ≡ prompt_drawn prompt.now row grid.old }
{
    let column = grid.draw_prompt(row, prompt.question(), prompt.input());
    grid.set_cursor(row, column);
}

/// Draws what is told, and puts the cursor at the point.
fn draw_told(echo: &Message, row: usize, point: (usize, usize), grid: &mut Grid)
    requires { IsLastRow row point grid.old }
    ensures { grid.new ≡ row_in_mode Plain [] echo.now row point grid.old }
{
    grid.draw_echo(row, echo);
    grid.set_cursor(point.0, point.1);
}

/// Draws the line of a search, and puts the cursor at the point.
fn draw_search(aim: &Aim, row: usize, point: (usize, usize), grid: &mut Grid)
    requires { IsLastRow row point grid.old }
    ensures { grid.new ≡ search_drawn aim.now row point grid.old }
{
    let _column = match aim {
        Aim::Find(sought) => grid.draw_search(
            row,
            sought.direction(),
            sought.is_failing(),
            sought.pattern(),
        ),
        Aim::Replace(_) => grid.draw_replacing(row),
    };
    grid.set_cursor(point.0, point.1);
}

/// Draws the last row where no search goes on: the line of the prompt where there is one and nothing is told, and else the
/// echo text. Puts the cursor behind that line, and else at the point.
fn draw_prompted(
    prompt: &Option<Prompt>,
    echo: &Message,
    row: usize,
    point: (usize, usize),
    grid: &mut Grid,
)
    requires { IsLastRow row point grid.old }
    ensures { grid.new ≡ row_in_mode (mode_in None prompt.now) (input_in None prompt.now) echo.now row point grid.old }
{
    match prompt {
        Some(prompt) if is_silent(echo) => draw_prompt(prompt, row, grid),
        _ => draw_told(echo, row, point, grid),
    }
}

/// Draws the last row: where nothing is told, the line of the search that goes on, or of the prompt where there is one, and
/// else the echo text. Puts the cursor behind the line of a prompt, and else at the point.
fn draw_last_row(state: &State, row: usize, point: (usize, usize), grid: &mut Grid)
    requires { IsLastRow row point grid.old }
    ensures { grid.new ≡ last_row_drawn (state_of state.now) row point grid.old }
{
    match &state.search {
        Some(search) => {
            if is_silent(&state.echo) {
                draw_search(&search.aim, row, point, grid);
            } else {
                draw_told(&state.echo, row, point, grid);
            }
        }
        None => draw_prompted(&state.prompt, &state.echo, row, point, grid),
    }
}

/// Whether no prompt waits, and nothing is told.
fn is_unprompted(prompt: &Option<Prompt>, echo: &Message) -> bool
    ensures { result ≡ true → (mode_in None prompt.now ≡ Plain) × (input_in None prompt.now ≡ []) × (echo.now ≡ (Says Silent)) }
{
    match prompt {
        Some(_) => false,
        None => is_silent(echo),
    }
}

/// Whether nothing is told, no search goes on and no prompt waits: the last row is blank, and the cursor is at the point.
fn is_at_rest(state: &State) -> bool
    ensures { result ≡ true → IsAtRest (state_of state.now) }
{
    match &state.search {
        Some(_) => false,
        None => is_unprompted(&state.prompt, &state.echo),
    }
}

/// Whether a row is known to show plain blanks.
fn is_blank(line: &Line) -> bool
    ensures { result ≡ true → line.now ≡ plain_row (length line.now.text) [] }
{
    line.is_known_blank()
}

/// Whether a row of a screen is known to show plain blanks.
fn is_blank_at(row: usize, grid: &Grid) -> bool
    requires { row < grid.now.rows }
    ensures { result ≡ true → rows_put row (plain_row grid.now.cols [] ∷ []) grid.now.lines ≡ grid.now.lines }
{
    prove!(grid.rows() <= ROWS_MAX);
    is_blank(&grid.lines()[row])
}

/// Clears a row that is not known to be blank, and notes that it was drawn.
fn clear_row(row: usize, rows: &mut RowSet, grid: &mut Grid)
    requires { row < grid.old.rows }
    ensures grid { grid.new ≡ with_rows row (plain_row grid.old.cols [] ∷ []) grid.old }
    ensures drawn { IsDrawnOn rows.old rows.new grid.old grid.new }
{
    prove!(grid.rows() <= ROWS_MAX);
    if is_blank_at(row, grid) {
        return;
    }
    grid.draw_blank(row, 1);
    rows.insert(row);
}

/// Draws the last row, and notes that it was drawn. Where it is to be blank and is known to be so, the cursor alone is put.
pub(crate) fn redraw_last_row(
    state: &State,
    row: usize,
    point: (usize, usize),
    rows: &mut RowSet,
    grid: &mut Grid,
)
    requires { IsLastRow row point grid.old }
    ensures grid { grid.new ≡ last_row_drawn (state_of state.now) row point grid.old }
    ensures drawn { IsDrawnOn rows.old rows.new grid.old grid.new }
{
    prove!(grid.rows() <= ROWS_MAX);
    if is_at_rest(state) {
        clear_row(row, rows, grid);
        grid.set_cursor(point.0, point.1);
        return;
    }
    draw_last_row(state, row, point, grid);
    rows.insert(row);
}
