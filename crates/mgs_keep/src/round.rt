// Which texts are still to be kept.
use mgs_model::BUFFER_LIMIT;

/// How a buffer stands: one that was edited or saved since stands otherwise.
#[derive(Clone, Copy, PartialEq, Eq)]
pub(crate) struct Standing {
    /// The serial of its last edit.
    pub(crate) serial: u64,
    /// Whether it is modified.
    pub(crate) modified: bool,
}

/// The seconds of the journal's clock from the last text that was kept to the next round.
pub(crate) const TEXT_SECONDS: u64 = 1;

// How no buffer stands: nothing is known of how one did. No edit has this serial before its buffer is full.
const NOWHERE: Standing = Standing {
    serial: u64::MAX,
    modified: false,
};

/// A walk over all buffers, one a turn, by which the texts of those that stand otherwise are kept. It begins where something was typed
/// since the last one.
#[derive(Drop)]
pub(crate) struct Round {
    // The place of the buffer that is next. None: no walk is under way.
    next: Option<usize>,
    is_typed: bool,
    // How each buffer stood when its text was kept last, by its place, or `NOWHERE`.
    noted: [Standing; BUFFER_LIMIT],
}

impl Round {
    /// Nothing is kept yet.
    pub(crate) fn new() -> Round {
        Round {
            next: None,
            is_typed: true,
            noted: [NOWHERE; BUFFER_LIMIT],
        }
    }

    /// Something was typed, by which buffers may stand at other places: nothing is known then of how any stood.
    pub(crate) fn type_on(&mut self, is_moved: bool) {
        self.is_typed = true;
        if is_moved {
            self.noted = [NOWHERE; BUFFER_LIMIT];
        }
    }

    /// The place of the buffer that is next. A walk begins where one is due and something was typed.
    pub(crate) fn next(&mut self, is_due: bool) -> Option<usize> {
        if self.next.is_none() && self.is_typed && is_due {
            self.is_typed = false;
            self.next = Some(0);
        }
        self.next
    }

    /// The walk goes on behind a place, or it is over.
    pub(crate) fn go_on(&mut self, next: Option<usize>) {
        self.next = next;
    }

    /// Whether the buffer at a place stood so when its text was kept last.
    pub(crate) fn is_noted(&self, place: usize, standing: Standing) -> bool {
        place < BUFFER_LIMIT && self.noted[place] == standing
    }

    /// The text of the buffer at a place was kept as it stands.
    pub(crate) fn note(&mut self, place: usize, standing: Standing) {
        if place < BUFFER_LIMIT {
            self.noted[place] = standing;
        }
    }
}
