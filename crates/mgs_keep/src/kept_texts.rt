// What is kept of texts.
ghost use Rattle.std.specs.Prelude.{◌≡◌, ◌++◌, false, IfOk, OnOk, string_bytes};
ghost use Rattle.std.specs.Str.{encode_utf8_all};
ghost use Rattle.mgs_keep.specs.Keeping.{AreKept, HasPut, OrFails, file_sum};
ghost use Rattle.mgs_keep.specs.Sums.{sum_of, summed};

use crate::round::{Round, Standing, TEXT_SECONDS};
use mgs_engine::Engine;
use mgs_journal::{Journal, JournalFault, Room, Snapshot};
use mgs_marks::Marked;
use mgs_model::Name;
use mgs_store::Store;
use std::alloc::{AllocError, Global};

fn push_piece(body: &mut String, piece: &[char]) -> Result<(), AllocError>
    ensures { OnOk result (string_bytes body.new ≡ string_bytes body.old ++ encode_utf8_all piece.now) }
{
    for i in 0..piece.len() {
        body.push(piece[i])?;
    }
    Ok(())
}

// A text as UTF-8.
fn body_of<T: Marked>(alloc: Global, text: &T) -> Result<String, AllocError>
    ensures { IfOk result (λ body. string_bytes body ≡ encode_utf8_all (T.text text.now)) }
{
    // Where there is no room for one byte a character, nothing is written.
    let mut body = String::with_capacity(alloc, text.len())?;
    let mut at = 0;
    while at < text.len() {
        let piece = text.piece(at);
        push_piece(&mut body, piece)?;
        at += piece.len();
    }
    Ok(body)
}

// The sum of no text.
const NO_TEXT: u64 = 0xcbf2_9ce4_8422_2325;

// What the sum is multiplied by for each character (Fowler, Noll and Vo's hash of 64 bits, over characters).
const FACTOR: u64 = 0x0000_0100_0000_01b3;

fn piece_sum(mut sum: u64, piece: &[char]) -> u64
    ensures { result ≡ summed sum piece.now }
{
    for c in piece {
        sum = (sum ^ u64::from(u32::from(*c))).wrapping_mul(FACTOR);
    }
    sum
}

/// A sum of a text, by which another one is known to be another.
pub fn text_sum<T: Marked>(text: &T) -> i64
    ensures { result ≡ sum_of (T.text text.now) }
{
    let mut sum = NO_TEXT;
    let mut at = 0;
    while at < text.len() {
        let piece = text.piece(at);
        sum = piece_sum(sum, piece);
        at += piece.len();
    }
    sum.cast_signed()
}

// The checksum of its file's text with which a text is kept: its own if the buffer is as its file is, else the one before.
fn file_sum<T: Marked>(kept: &Option<Snapshot<'_>>, text: &T, modified: bool) -> i64
    ensures { result ≡ file_sum modified (T.text text.now) kept.now }
{
    if !modified {
        return text_sum(text);
    }
    match kept {
        Some(kept) => kept.file,
        None => 0,
    }
}

/// How the buffer at a place stands. `None` where there are no more than `i`.
pub(crate) fn standing_at<T: Marked + Drop, S: Store + Drop>(
    engine: &Engine<T, S>,
    i: usize,
) -> Option<Standing> {
    let buffers = engine.buffers();
    let rights = buffers.rights(i)?;
    let found = buffers.find(rights.name);
    Some(Standing {
        serial: found.serial(),
        modified: found.is_modified(),
    })
}

fn is_kept(kept: Option<Snapshot<'_>>, body: &str, modified: bool) -> bool {
    match kept {
        Some(kept) => kept.modified == modified && kept.body == body,
        None => false,
    }
}

// Has the journal keep the text of the buffer at a place as it stands, where it keeps another, unless it failed. `false` where memory was refused.
fn keep_text<T: Marked + Drop, S: Store + Drop, J: Journal>(
    alloc: Global,
    engine: &Engine<T, S>,
    journal: &mut J,
    failed: &mut bool,
    i: usize,
) -> bool
    requires { failed.old ≡ false → AreKept J.rows engine.now journal.old }
    ensures kept { failed.new ≡ false → J.rows journal.new ≡ J.rows journal.old }
    ensures journal { OrFails J.fails (HasPut J.texts J.does engine.now) failed.old journal.old failed.new journal.new }
    ensures left { result ≡ false → (journal.new ≡ journal.old) × (failed.new ≡ failed.old) }
{
    if *failed {
        return true;
    }
    let buffers = engine.buffers();
    let Some(rights) = buffers.rights(i) else {
        return true;
    };
    let found = buffers.find(rights.name);
    let Ok(body) = body_of(alloc, found.text()) else {
        return false;
    };
    let modified = found.is_modified();
    if is_kept(journal.text(i), body.as_str(), modified) {
        return true;
    }
    let file = file_sum(&journal.text(i), found.text(), modified);
    match journal.set_text(i, body, modified, file) {
        Ok(()) => {}
        Err(JournalFault) => *failed = true,
    }
    true
}

// The same, with what is set aside lent to a text that takes the place of one: it gives back what it takes, and a first one would not.
fn keep_in_room<T: Marked + Drop, S: Store + Drop, J: Journal>(
    alloc: Global,
    engine: &Engine<T, S>,
    journal: &mut J,
    failed: &mut bool,
    room: &mut Room,
    i: usize,
) -> bool
    requires { failed.old ≡ false → AreKept J.rows engine.now journal.old }
    ensures kept { failed.new ≡ false → J.rows journal.new ≡ J.rows journal.old }
    ensures journal { OrFails J.fails (HasPut J.texts J.does engine.now) failed.old journal.old failed.new journal.new }
    ensures left { result ≡ false → (journal.new ≡ journal.old) × (failed.new ≡ failed.old) }
{
    if journal.text(i).is_none() {
        return keep_text(alloc, engine, journal, failed, i);
    }
    room.lend();
    let is_done = keep_text(alloc, engine, journal, failed, i);
    room.take_back();
    is_done
}

// Has the journal keep the text of the buffer at a place, where it does not stand as it did when its text was kept, unless it failed. Whether
// that is done: not where memory was refused, which leaves it for the next round.
fn keep_unless_noted<T: Marked + Drop, S: Store + Drop, J: Journal>(
    alloc: Global,
    engine: &Engine<T, S>,
    journal: &mut J,
    failed: &mut bool,
    round: &mut Round,
    room: &mut Room,
    place: usize,
) -> bool
    requires { failed.old ≡ false → AreKept J.rows engine.now journal.old }
    ensures kept { failed.new ≡ false → J.rows journal.new ≡ J.rows journal.old }
    ensures journal { OrFails J.fails (HasPut J.texts J.does engine.now) failed.old journal.old failed.new journal.new }
    ensures left { result ≡ false → (journal.new ≡ journal.old) × (failed.new ≡ failed.old) }
{
    let Some(standing) = standing_at(engine, place) else {
        return false;
    };
    if round.is_noted(place, standing) {
        return false;
    }
    let is_done = keep_in_room(alloc, engine, journal, failed, room, place);
    if is_done {
        round.note(place, standing);
    } else {
        round.type_on(false);
    }
    is_done
}

/// Has the journal keep the text that is next in a round, unless it failed: of one buffer at most.
pub(crate) fn keep_next<T: Marked + Drop, S: Store + Drop, J: Journal>(
    alloc: Global,
    engine: &Engine<T, S>,
    journal: &mut J,
    failed: &mut bool,
    round: &mut Round,
    room: &mut Room,
)
    requires { failed.old ≡ false → AreKept J.rows engine.now journal.old }
    ensures kept { failed.new ≡ false → J.rows journal.new ≡ J.rows journal.old }
    ensures journal { OrFails J.fails (HasPut J.texts J.does engine.now) failed.old journal.old failed.new journal.new }
{
    let Some(from) = round.next(journal.is_text_due(TEXT_SECONDS)) else {
        return;
    };
    for place in from..engine.buffers().len() {
        if keep_unless_noted(alloc, engine, journal, failed, round, room, place) {
            round.go_on(place.checked_add(1));
            return;
        }
    }
    round.go_on(None);
}

fn place_named<T: Marked + Drop, S: Store + Drop>(
    engine: &Engine<T, S>,
    name: &Name,
) -> Option<usize> {
    for place in 0..engine.buffers().len() {
        if let Some(rights) = engine.buffers().rights(place) {
            if *rights.name == *name {
                return Some(place);
            }
        }
    }
    None
}

/// Has the journal keep the text of a buffer that was saved, unless it failed.
pub(crate) fn keep_saved<T: Marked + Drop, S: Store + Drop, J: Journal>(
    alloc: Global,
    engine: &Engine<T, S>,
    journal: &mut J,
    failed: &mut bool,
    room: &mut Room,
    name: Option<Name>,
)
    requires { failed.old ≡ false → AreKept J.rows engine.now journal.old }
    ensures kept { failed.new ≡ false → J.rows journal.new ≡ J.rows journal.old }
    ensures journal { OrFails J.fails (HasPut J.texts J.does engine.now) failed.old journal.old failed.new journal.new }
{
    let Some(name) = name else {
        return;
    };
    if let Some(place) = place_named(engine, &name) {
        keep_in_room(alloc, engine, journal, failed, room, place);
    }
}
