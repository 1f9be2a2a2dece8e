// What has become of the rows of a text since it was drawn.
ghost use Rattle.std.specs.Prelude.{◌≡◌, ℕ, ◌+◌, ◌≤◌, List, true, count_by};
ghost use Rattle.mgs_model.specs.Lines.{is_feed, line_of};
ghost use Rattle.mgs_buffers.specs.MarkedBuffer.{marked_at};
ghost use Rattle.mgs_screen.specs.Canvas.{IsReadOf};
ghost use Rattle.mgs_screen.specs.Changes.{IsChange, IsChangeBy, IsChangeSince, IsStopSince};
ghost use Rattle.mgs_screen.specs.TabStops.{IsKnown, IsTabStop};

use crate::drawn_texts::Shown;
use crate::tab_stops::TabStop;
use mgs_buffers::Found;
use mgs_marks::Marked;
use mgs_text::Text;
use mgs_undo::Edit;

/// How many characters that an edit took out are looked at for a line feed.
const FEW: usize = 80;

/// What has become of a text's rows, from the first line on that is shown.
#[derive(Clone, Copy)]
pub(crate) enum Change {
    /// They show the same, though they may lie elsewhere in the text.
    Nothing,
    /// One line alone is another one: it is so many lines further down.
    Line(usize),
    /// Each row may show something else.
    Anything,
}

/// Whether characters are few, and no line feed is among them.
fn is_in_line(chars: &[char]) -> bool
    ensures { result ≡ true → count_by is_feed chars.now ≡ 0 }
{
    chars.len() <= FEW && chars.iter().filter(|c| **c == '\n').count() == 0
}

/// Whether a text of `size` characters has `len` after an edit at `at`, and what it put in lies within them.
fn fits(at: usize, removed: usize, added: usize, size: usize, len: usize) -> bool
    ensures within { result ≡ true → at + added ≤ len }
    ensures sizes { result ≡ true → len + removed ≡ size + added }
{
    added <= len && at <= len - added && removed <= size && len - added == size - removed
}

/// Whether an edit lies before what is shown of a text, and moved its start from one position to another.
fn lies_before(at: usize, removed: usize, added: usize, from: usize, start: usize) -> bool
    ensures old { result ≡ true → at + removed ≤ from }
    ensures new { result ≡ true → start + removed ≡ from + added }
{
    removed <= from && at <= from - removed && added <= start && start - added == from - removed
}

/// What an edit made of a text that has now these characters and had `size` of them. What is shown of it began at `from`, and begins at
/// `start` now, with line `above`.
fn change_by<T: Text>(
    edit: &Edit,
    text: &T,
    from: usize,
    start: usize,
    above: usize,
    size: usize,
) -> Change
    requires { line_of (T.text text.now) start ≡ above }
    ensures { IsChangeBy edit.now from start size (T.text text.now) result }
{
    let len = text.len();
    let removed = edit.removed.len();
    if !fits(edit.at, removed, edit.added, size, len) {
        return Change::Anything;
    }
    if lies_before(edit.at, removed, edit.added, from, start) {
        return Change::Nothing;
    }
    if from != start {
        return Change::Anything;
    }
    if edit.at < start {
        return Change::Anything;
    }
    if !is_in_line(&edit.removed) {
        return Change::Anything;
    }
    let line = text.line_of(edit.at);
    if text.line_of(edit.at + edit.added) != line {
        return Change::Anything;
    }
    Change::Line(line - above)
}

/// A tab stop, where it lies no further than an edit.
fn stop_before(edit: &Edit, stop: TabStop) -> Option<TabStop>
    ensures { (text : List ℕ) → (stop.place ≤ edit.now.at → IsTabStop text stop) → IsKnown text result }
{
    if edit.at < stop.place {
        None
    } else {
        Some(stop)
    }
}

/// What has become of the rows of a text that is the same, and is shown from this position and not from that one.
fn change_of_place(from: usize, start: usize) -> Change
    ensures { (text : List ℕ) → IsChange result from start text text }
{
    if from == start {
        Change::Nothing
    } else {
        Change::Anything
    }
}

/// The tab stop that was known of a text when it was drawn earlier, where no edit since lies before it.
pub(crate) fn stop_since<T: Marked + Drop>(found: &Found<T>, earlier: &Shown) -> Option<TabStop>
    ensures { IsStopSince earlier.now (marked_at found.now.name found.now.all).buffer result }
{
    let serial = found.serial();
    if serial == earlier.serial {
        return Some(earlier.stop);
    }
    if serial < earlier.serial || serial - earlier.serial > 1 {
        return None;
    }
    match found.item(serial) {
        Some(edit) => stop_before(edit, earlier.stop),
        None => None,
    }
}

/// What has become of the rows of a buffer's text since it was drawn earlier, where this is shown of it now.
pub(crate) fn change_since<T: Marked + Drop>(
    found: &Found<T>,
    text: &T,
    shown: &Shown,
    earlier: &Shown,
) -> Change
    requires read { IsReadOf found.now shown.now (T.text text.now) }
    requires line { line_of (T.text text.now) shown.now.start ≡ shown.now.above }
    ensures { IsChangeSince earlier.now shown.now.start (marked_at found.now.name found.now.all).buffer (T.text text.now) result }
{
    let serial = earlier.serial;
    if shown.serial == serial {
        return change_of_place(earlier.start, shown.start);
    }
    if shown.serial < serial || shown.serial - serial > 1 {
        return Change::Anything;
    }
    match found.item(shown.serial) {
        Some(edit) => change_by(
            edit,
            text,
            earlier.start,
            shown.start,
            shown.above,
            earlier.size,
        ),
        None => Change::Anything,
    }
}
