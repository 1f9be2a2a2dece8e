// Which texts a screen shows, and as of which edits.
ghost use Rattle.std.specs.Prelude.{◌≡◌, [], Some, IfSome, slice_get};
ghost use Rattle.mgs_screen.specs.TextsDrawn.{pushed, text_then};

use crate::tab_stops::TabStop;
use arrayvec::ArrayVec;
use mgs_model::Name;
use std::marker::Model;

/// What a mode line is drawn from, but for the buffer's name.
#[derive(Clone, Copy)]
pub(crate) struct ModeLine {
    /// Whether the buffer is modified, where that and its name may be told.
    pub(crate) heading: Option<bool>,
    /// The point's line, from 1.
    pub(crate) line: usize,
    /// The point's column.
    pub(crate) column: usize,
}

/// What is shown of a text, and as of which edit of its buffer.
#[derive(Clone, Copy)]
pub(crate) struct Shown {
    /// The serial of the buffer's last edit.
    pub(crate) serial: u64,
    /// How many characters the text has.
    pub(crate) size: usize,
    /// The line that the first row shows, from 0.
    pub(crate) above: usize,
    /// Where that line starts.
    pub(crate) start: usize,
    /// The row of the point's line, from the first.
    pub(crate) row: usize,
    /// From which column that row is shown. The others are shown from column 0.
    pub(crate) shift: usize,
    /// A tab stop in the point's line, from which its columns are counted next.
    pub(crate) stop: TabStop,
    /// What the mode line is drawn from.
    pub(crate) mode: ModeLine,
}

/// A text that was drawn.
#[derive(Clone, Copy)]
pub struct DrawnText {
    /// The buffer.
    pub(crate) name: Name,
    /// The first row.
    pub(crate) first: usize,
    /// How many rows.
    pub(crate) height: usize,
    /// What they show.
    pub(crate) shown: Shown,
}

/// The texts that a screen shows, so that it can be drawn again in the rows alone that change: one for each window, from the top, or
/// none where the window shows none. It has room for as many as there are windows, and takes no memory.
#[derive(Drop)]
pub struct DrawnTexts {
    texts: ArrayVec<Option<DrawnText>, 8>,
}

impl Model for DrawnTexts {
    ghost use Rattle.std.specs.Prelude.{List, Option};
    ghost use Rattle.mgs_screen.specs.declared.drawn_texts.DrawnText.{DrawnText};

    ghost Value = { List (Option DrawnText) };

    ghost view = { λ s. s.texts.items };
}

impl DrawnTexts {
    /// No text.
    pub fn new() -> DrawnTexts
        ensures { result ≡ [] }
    {
        DrawnTexts {
            texts: ArrayVec::new(),
        }
    }

    /// Forgets all texts: the whole screen is drawn next.
    pub fn clear(&mut self)
        ensures { self.new ≡ [] }
    {
        self.texts.clear();
    }

    /// The text that was drawn in the place of this index, if it was of this buffer, in these rows.
    pub(crate) fn drawn(
        &self,
        index: usize,
        name: &Name,
        first: usize,
        height: usize,
    ) -> Option<Shown>
        ensures { IfSome result (λ e. slice_get self.now index ≡ Some (Some (text_then name.now first height e))) }
    {
        let Some(place) = self.texts.get(index) else {
            return None;
        };
        let Some(drawn) = place else {
            return None;
        };
        if drawn.first == first && drawn.height == height && drawn.name == *name {
            Some(drawn.shown)
        } else {
            None
        }
    }

    /// A place more, for a text or for none. Where there are eight already, nothing changes.
    pub(crate) fn push(&mut self, text: Option<DrawnText>)
        ensures { self.new ≡ pushed text self.old }
    {
        if !self.texts.is_full() {
            self.texts.push(text);
        }
    }
}
