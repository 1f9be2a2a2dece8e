// What is kept of a buffer's text.
use std::marker::Model;

/// The text of a buffer as it was at a moment between two events.
#[derive(Drop)]
pub struct Snapshot<'a> {
    /// The text, whole.
    pub body: &'a str,
    /// Whether the buffer was modified then: its file, if it has one, had another text.
    pub modified: bool,
    /// A sum of the text that the buffer's file had when it was last loaded or saved, as who keeps the text reckons it.
    pub file: i64,
}

impl<'a> Model for Snapshot<'a> {
    ghost use Rattle.mgs_journal.specs.Texts.{KeptText};

    ghost Value = { KeptText };

    ghost view = { λ s. record { body = s.body.now; modified = s.modified; file = s.file } };
}
