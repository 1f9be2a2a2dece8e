// Rows that are played over any texts. `None` is everywhere: memory was refused to what is not the server's.
use crate::refusing::{Refusing, numeral_of};
use crate::screen::{are_same_above, cut_field, cut_word, is_first_row_of, tells_no_memory};
use crate::stage::{Stage, bytes_of, open, press, served, shows, term_of};
use crate::store::Takes;
use mgs_gap::GapText;
use mgs_marks::Marked;
use mgs_model::{Keyed, OpenFault, SessionId};
use mgs_term::Cell;
use std::alloc::Global;

// A text that begins with two numerals refuses a growth, and no other does.
type Numbered = Refusing<{ usize::MAX }>;

/// How a row came out.
#[derive(Clone, Copy, PartialEq, Eq)]
pub(crate) enum Outcome {
    /// Each step showed what it is to show.
    Met,
    /// Memory was refused, and what was shown then is what that may leave. The row ended there.
    Refused,
    /// Something else was shown.
    Wrong,
}

fn met(is_met: bool) -> Outcome {
    if is_met { Outcome::Met } else { Outcome::Wrong }
}

// A user sits down at a terminal, with the next number as the id: at the second try where memory is refused to the first.
fn sit<T: Marked + Drop>(stage: &mut Stage<T>, user: &str) -> Option<Outcome> {
    let opened = match open(stage, user)? {
        Err(OpenFault::Short) => open(stage, user)?,
        opened => opened,
    };
    Some(met(opened.is_ok()))
}

// The cells of the terminal of a session: none where there is no such session.
fn cells<T: Marked + Drop>(stage: &Stage<T>, id: SessionId) -> &[Cell] {
    match term_of(stage, id) {
        Some(term) => term.grid(),
        None => &[],
    }
}

// Memory was refused to the last of these bytes. Where one act alone can have been refused, the rows are as they were, and the bytes are typed
// again: then there is memory.
fn again<T: Marked + Drop>(
    stage: &mut Stage<T>,
    id: SessionId,
    bytes: &[u8],
    before: &[Cell],
    screen: &str,
    refused: &str,
) -> Outcome {
    if !tells_no_memory(cells(stage, id)) {
        return Outcome::Wrong;
    }
    if !refused.is_empty() {
        let is_left = is_first_row_of(cells(stage, id), refused);
        return if is_left {
            Outcome::Refused
        } else {
            Outcome::Wrong
        };
    }
    if !are_same_above(before, cells(stage, id)) {
        return Outcome::Wrong;
    }
    let answer = press(stage, id, bytes);
    met(answer == Keyed::Done && shows(stage, id, screen))
}

// What is told of a refusal behind the echo line.
fn refused_of(screen: &str) -> &str {
    let (_, rest) = cut_field(screen);
    let (_, rest) = cut_field(rest);
    let (_, rest) = cut_field(rest);
    rest.trim_end()
}

fn step<T: Marked + Drop>(stage: &mut Stage<T>, line: &str) -> Option<Outcome> {
    let (keys, screen) = cut_field(line);
    let (id, keys) = cut_word(keys);
    let Some(id) = id.parse::<u64>().ok() else {
        return Some(Outcome::Wrong);
    };
    let bytes = bytes_of(stage.alloc, keys)?;
    let before = Vec::from_slice(stage.alloc, cells(stage, id)).ok()?;
    let outcome = match press(stage, id, &bytes) {
        Keyed::Done => met(shows(stage, id, screen)),
        Keyed::Short => again(stage, id, &bytes, &before, screen, refused_of(screen)),
        Keyed::Quit | Keyed::NoSession => Outcome::Wrong,
    };
    Some(outcome)
}

fn play_line<T: Marked + Drop>(stage: &mut Stage<T>, line: &str) -> Option<Outcome> {
    if line.is_empty() {
        return Some(Outcome::Met);
    }
    match line.strip_prefix("sit ") {
        Some(user) => sit(stage, user),
        None => step(stage, line),
    }
}

fn play_on<T: Marked + Drop>(stage: &mut Stage<T>, lines: &str) -> Option<Outcome> {
    for line in lines.lines() {
        match play_line(stage, line)? {
            Outcome::Met => {}
            other => return Some(other),
        }
    }
    Some(Outcome::Met)
}

fn play_once(alloc: Global, lines: &str) -> Option<Outcome> {
    let (buffer, lines) = lines.split_once('\n').unwrap_or((lines, ""));
    let mut stage = served::<GapText>(alloc, buffer, Takes::Nothing)?;
    play_on(&mut stage, lines)
}

/// Plays a row over the texts of the programs: from the start again where memory was refused.
pub(crate) fn play(alloc: Global, lines: &str) -> Outcome {
    for _ in 0..3usize {
        match play_once(alloc, lines) {
            Some(Outcome::Refused) | None => {}
            Some(outcome) => return outcome,
        }
    }
    Outcome::Refused
}

// The lines, with these two numerals in the place of each `##`.
fn with_numerals(alloc: Global, lines: &str, numeral: &str) -> Option<String> {
    let mut numbered = String::new(alloc);
    for (i, part) in lines.split("##").enumerate() {
        if i > 0 {
            numbered.push_str(numeral).ok()?;
            numbered.push_str(numeral).ok()?;
        }
        numbered.push_str(part).ok()?;
    }
    Some(numbered)
}

// Plays a row whose text refuses this growth, and tells whether it came to that growth.
fn play_refused(alloc: Global, lines: &str, growth: usize) -> Option<(Outcome, bool)> {
    let lines = with_numerals(alloc, lines, numeral_of(growth)?)?;
    let (buffer, lines) = lines.split_once('\n').unwrap_or((lines.as_str(), ""));
    let mut stage = served::<Numbered>(alloc, buffer, Takes::Nothing)?;
    let outcome = play_on(&mut stage, lines)?;
    Some((outcome, stage.is_refused))
}

/// Plays a row once for each growth of its first buffer's text and of that text's marks, which is refused, until a run comes to no such growth.
/// The number of those that came, or of the one at which something else was shown than is to be.
pub(crate) fn refuse_each(alloc: Global, lines: &str) -> Result<usize, usize> {
    for growth in 1..usize::MAX {
        match play_refused(alloc, lines, growth) {
            Some((Outcome::Met, false)) => return Ok(growth - 1),
            Some((Outcome::Met | Outcome::Refused, true)) => {}
            _ => return Err(growth),
        }
    }
    Err(0)
}
