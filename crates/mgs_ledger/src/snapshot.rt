// What is kept of a buffer's text.
ghost use Rattle.std.specs.Prelude.{◌≡◌, get_or, None};

use mgs_journal::Snapshot;
use std::marker::Model;

/// A snapshot as a value of its own.
#[derive(Drop)]
pub(crate) struct SnapshotValue {
    pub(crate) body: String,
    pub(crate) modified: bool,
    pub(crate) file: i64,
}

impl Model for SnapshotValue {
    ghost use Rattle.std.specs.Prelude.{string_bytes};
    ghost use Rattle.mgs_journal.specs.Texts.{KeptText};

    ghost Value = { KeptText };

    ghost view = { λ s. record { body = string_bytes s.body; modified = s.modified; file = s.file } };
}

/// The snapshot, lent.
pub(crate) fn snapshot_in(value: &SnapshotValue) -> Snapshot<'_>
    ensures { result ≡ value.now }
{
    Snapshot {
        body: value.body.as_str(),
        modified: value.modified,
        file: value.file,
    }
}

/// The snapshot at a place, lent. `None` where none is there, or there are no more than `i`.
pub(crate) fn snapshot_at(texts: &[Option<SnapshotValue>], i: usize) -> Option<Snapshot<'_>>
    ensures { result ≡ get_or texts.now i None }
{
    if i >= texts.len() {
        return None;
    }
    match &texts[i] {
        Some(value) => Some(snapshot_in(value)),
        None => None,
    }
}
