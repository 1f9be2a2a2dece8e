// What a window shows in place of a text, drawn into its rows: nothing, the listing of all buffers, or an access list.
ghost use Rattle.std.specs.Prelude.{◌≡◌, ◌+◌, ◌<◌, ◌≤◌, ◌^◌, [], ◌∷◌, ◌++◌, map, length, decimal};
ghost use Rattle.std.specs.Option.{option_map};
ghost use Rattle.mgs_model.specs.Seen.{No_pane, if_granted};
ghost use Rattle.mgs_model.specs.Draw.{listing_text, entry_text, entries_texts};
ghost use Rattle.mgs_grid.specs.Lists.{unlisted_text};
ghost use Rattle.mgs_buffers.specs.MarkedBuffer.{HasBuffer};
ghost use Rattle.mgs_buffers.specs.Judging.{AreJudged, rules_kept};
ghost use Rattle.mgs_buffers.specs.Told.{attributes_read};
ghost use Rattle.mgs_screen.specs.Listings.{IsDrawnInSight, IsPaneDrawn, acl_drawn, listing_to, entries_to, rows_to, name_to, place_in, past_sight, row_drawn, buffer_drawn, drawn, listed};

use crate::viewer::Viewer;
use mgs_acl::{Entry, print_entry};
use mgs_buffers::{Attributes, Buffers, Found};
use mgs_cache::Judge;
use mgs_grid::Grid;
use mgs_marks::Marked;
use mgs_model::{Decision, Name, ROWS_MAX, Right};
use mgs_windows::{RowPane, Window};

/// Where the rows of a list are drawn: `height` rows from row `first` on, of which the first shows the row of number `row`.
#[derive(Clone, Copy)]
pub struct Sight {
    /// The first row of the screen, counted from 0.
    pub first: usize,
    /// How many rows.
    pub height: usize,
    /// The number of the list's row that the first one shows, counted from 0.
    pub row: usize,
}

/// In which row the one of a number is drawn, where it is in sight.
fn place_in(sight: Sight, number: usize) -> Option<usize>
    requires { sight.first + sight.height < 2 ^ 64 }
    ensures { result ≡ place_in sight number }
{
    if sight.row <= number && number - sight.row < sight.height {
        Some(sight.first + (number - sight.row))
    } else {
        None
    }
}

/// Whether the row of a number is below those in sight, and with it each row after it.
fn is_past(sight: Sight, number: usize) -> bool
    ensures { result ≡ past_sight sight number }
{
    sight.row <= number && sight.height <= number - sight.row
}

/// Draws a row of the listing, where it is in sight.
fn draw_listed(attributes: &Attributes, number: usize, sight: Sight, grid: &mut Grid)
    requires { sight.first + sight.height ≤ grid.old.rows }
    ensures { grid.new ≡ row_drawn sight number (listing_text (attributes_read attributes.now)) grid.old }
{
    prove!(grid.rows() <= ROWS_MAX);
    if let Some(at) = place_in(sight, number) {
        grid.draw_listed(
            at,
            attributes.modified,
            attributes.size,
            &attributes.name,
            &attributes.owners,
        );
    }
}

/// Draws the row of a buffer, where it is told of and in sight. Tells the number of the row after it.
fn draw_buffer(
    attributes: Option<Attributes>,
    number: usize,
    sight: Sight,
    grid: &mut Grid,
) -> usize
    requires room { sight.first + sight.height ≤ grid.old.rows }
    requires few { number + 1 < 2 ^ 64 }
    ensures grid { grid.new ≡ buffer_drawn sight number (option_map attributes_read attributes) grid.old }
    ensures next { result ≡ number + length (if_granted (option_map attributes_read attributes)) }
    ensures few { result ≤ number + 1 }
{
    match attributes {
        Some(attributes) => {
            draw_listed(&attributes, number, sight, grid);
            number + 1
        }
        None => number,
    }
}

/// Draws the rows of the listing, down to the last one in sight.
fn draw_buffers<T: Marked + Drop>(
    buffers: &Buffers<T>,
    judge: &mut Judge,
    viewer: &Viewer<'_>,
    sight: Sight,
    grid: &mut Grid,
)
    requires room { sight.first + sight.height ≤ grid.old.rows }
    requires judged { AreJudged viewer.now.directory.now (rules_kept buffers.now) judge.old }
    ensures grid { grid.new ≡ drawn sight (map listing_text (listed viewer.now.directory.now viewer.now.user.now buffers.now)) grid.old }
    ensures judged { AreJudged viewer.now.directory.now (rules_kept buffers.now) judge.new }
{
    prove!(grid.rows() <= ROWS_MAX);
    grid.draw_blank(sight.first, sight.height);
    let mut number = 0;
    for i in 0..buffers.len() {
        // No further row is in sight.
        if is_past(sight, number) {
            break;
        }
        let attributes = buffers.attributes(judge, viewer.directory, viewer.user, i);
        number = draw_buffer(attributes, number, sight, grid);
    }
}

/// Draws the listing of all buffers, and its mode line in the row below those in sight. Only the buffers on which the user is
/// granted READ_ATTRIBUTES have rows, in the order of creation. Who may see what is decided by a judge that keeps what was
/// decided on these buffers.
pub fn draw_listing<T: Marked + Drop>(
    buffers: &Buffers<T>,
    judge: &mut Judge,
    viewer: &Viewer<'_>,
    sight: Sight,
    grid: &mut Grid,
)
    requires room { sight.first + sight.height < grid.old.rows }
    requires judged { AreJudged viewer.now.directory.now (rules_kept buffers.now) judge.old }
    ensures grid { IsDrawnInSight sight (listing_to viewer.now.directory.now viewer.now.user.now buffers.now sight.row) grid.old grid.new }
    ensures judged { AreJudged viewer.now.directory.now (rules_kept buffers.now) judge.new }
{
    prove!(grid.rows() <= ROWS_MAX);
    draw_buffers(buffers, judge, viewer, sight, grid);
    grid.draw_buffers_mode(sight.first + sight.height);
}

/// Draws a row of an access list, where it is in sight: the entry of an index, counted from 0.
fn draw_entry(entry: &Entry, i: usize, sight: Sight, grid: &mut Grid)
    requires room { sight.first + sight.height ≤ grid.old.rows }
    requires few { i + 1 < 2 ^ 64 }
    ensures { grid.new ≡ row_drawn sight i (decimal (i + 1) ++ 32 ∷ entry_text entry.now) grid.old }
{
    prove!(grid.rows() <= ROWS_MAX);
    if let Some(at) = place_in(sight, i) {
        let text = print_entry(entry);
        grid.draw_entry(at, i + 1, text.as_str().as_bytes());
    }
}

/// Draws the rows of an access list that may be read, down to the last one in sight.
fn draw_list(entries: &[Entry], sight: Sight, grid: &mut Grid)
    requires { sight.first + sight.height ≤ grid.old.rows }
    ensures { grid.new ≡ drawn sight (entries_texts 1 entries.now) grid.old }
{
    prove!(grid.rows() <= ROWS_MAX);
    grid.draw_blank(sight.first, sight.height);
    for (i, entry) in entries.iter().enumerate() {
        // No further row is in sight.
        if is_past(sight, i) {
            break;
        }
        draw_entry(entry, i, sight, grid);
    }
}

/// Draws the row that says why an access list may not be read, where it is in sight.
fn draw_cause(decision: Decision, sight: Sight, grid: &mut Grid)
    requires { sight.first + sight.height ≤ grid.old.rows }
    ensures { grid.new ≡ row_drawn sight 0 (unlisted_text decision) grid.old }
{
    prove!(grid.rows() <= ROWS_MAX);
    if let Some(at) = place_in(sight, 0) {
        grid.draw_unlisted(at, decision);
    }
}

/// Draws the rows of an access list that may not be read: the one that says why.
fn draw_unlisted(decision: Decision, sight: Sight, grid: &mut Grid)
    requires { sight.first + sight.height ≤ grid.old.rows }
    ensures { grid.new ≡ drawn sight (unlisted_text decision ∷ []) grid.old }
{
    prove!(grid.rows() <= ROWS_MAX);
    grid.draw_blank(sight.first, sight.height);
    draw_cause(decision, sight, grid);
}

/// Draws the rows of a buffer's access list.
fn draw_acl<T: Marked + Drop>(
    found: &Found<T>,
    judge: &mut Judge,
    viewer: &Viewer<'_>,
    sight: Sight,
    grid: &mut Grid,
)
    requires room { sight.first + sight.height ≤ grid.old.rows }
    requires judged { AreJudged viewer.now.directory.now (rules_kept found.now.all) judge.old }
    ensures judged { AreJudged viewer.now.directory.now (rules_kept found.now.all) judge.new }
    ensures grid { grid.new ≡ acl_drawn sight viewer.now.directory.now viewer.now.user.now found.now grid.old }
{
    if found.grants_by(judge, viewer.directory, viewer.user, Right::ReadAcl) {
        draw_list(found.entries(), sight, grid);
    } else {
        let decision = found.decide_by(judge, viewer.directory, viewer.user, Right::ReadAcl);
        draw_unlisted(decision, sight, grid);
    }
}

/// A buffer's name, where its attributes may be read.
fn shown_name<T: Marked + Drop>(
    found: &Found<T>,
    judge: &mut Judge,
    viewer: &Viewer<'_>,
) -> Option<Name>
    requires { AreJudged viewer.now.directory.now (rules_kept found.now.all) judge.old }
    ensures value { result ≡ name_to viewer.now.directory.now viewer.now.user.now found.now.all found.now.name }
    ensures judged { AreJudged viewer.now.directory.now (rules_kept found.now.all) judge.new }
{
    if found.grants_by(judge, viewer.directory, viewer.user, Right::ReadAttributes) {
        Some(*found.name())
    } else {
        None
    }
}

/// Draws the access list of a buffer, and its mode line in the row below those in sight. Where READ_ACL is not granted to the
/// user, the one row says why, and where READ_ATTRIBUTES is not, the mode line has no name. It is decided by a judge that keeps
/// what was decided on these buffers.
pub fn draw_entries<T: Marked + Drop>(
    buffers: &Buffers<T>,
    judge: &mut Judge,
    viewer: &Viewer<'_>,
    name: &Name,
    sight: Sight,
    grid: &mut Grid,
)
    requires kept { HasBuffer name.now buffers.now }
    requires room { sight.first + sight.height < grid.old.rows }
    requires judged { AreJudged viewer.now.directory.now (rules_kept buffers.now) judge.old }
    ensures judged { AreJudged viewer.now.directory.now (rules_kept buffers.now) judge.new }
    ensures grid { IsDrawnInSight sight (entries_to viewer.now.directory.now viewer.now.user.now buffers.now name.now sight.row) grid.old grid.new }
{
    prove!(grid.rows() <= ROWS_MAX);
    let found = buffers.find(name);
    draw_acl(&found, judge, viewer, sight, grid);
    let shown = shown_name(&found, judge, viewer);
    grid.draw_acl_mode(sight.first + sight.height, shown);
}

/// Draws blank rows, and the mode line of a window that shows nothing.
fn draw_none(first: usize, height: usize, grid: &mut Grid)
    requires { first + height < grid.old.rows }
    ensures { IsPaneDrawn first height No_pane grid.old grid.new }
{
    prove!(grid.rows() <= ROWS_MAX);
    grid.draw_blank(first, height);
    grid.draw_none_mode(first + height);
}

/// Draws what a window without a text shows, and its mode line: into its rows from row `first` on, and the one below.
pub(crate) fn draw_rows<T: Marked + Drop>(
    buffers: &Buffers<T>,
    judge: &mut Judge,
    viewer: &Viewer<'_>,
    window: &Window,
    first: usize,
    grid: &mut Grid,
)
    requires room { first + window.now.height < grid.old.rows }
    requires judged { AreJudged viewer.now.directory.now (rules_kept buffers.now) judge.old }
    ensures judged { AreJudged viewer.now.directory.now (rules_kept buffers.now) judge.new }
    ensures grid { IsPaneDrawn first window.now.height (rows_to viewer.now.directory.now viewer.now.user.now buffers.now window.now.rows) grid.old grid.new }
{
    let height = window.height;
    match window.rows {
        RowPane::NoRows => draw_none(first, height, grid),
        RowPane::Buffers { row } => {
            let sight = Sight { first, height, row };
            draw_listing(buffers, judge, viewer, sight, grid);
        }
        RowPane::Entries { name, row } => {
            if buffers.has(&name) {
                let sight = Sight { first, height, row };
                draw_entries(buffers, judge, viewer, &name, sight, grid);
            } else {
                draw_none(first, height, grid);
            }
        }
    }
}
