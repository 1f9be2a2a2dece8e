// How a script's line is read.
ghost use Rattle.std.specs.Prelude.{◌≡◌, Some, IfSome};
ghost use Rattle.std.specs.Option.{option_map};
ghost use Rattle.mgs_script.specs.Lines.{line_view, group_said, buffer_said, owngroup_said, entry_said, text_said, open_said, keys_said, said_by_kind, said_in, is_passed_over, GivesLine, label_typed, label_after};

use crate::kind::{LineKind, kind_of};
use crate::line::{Line, LineFault};
use crate::text::read_text;
use crate::word::{any_word, cut_text, name_in, size, words};
use mgs_keys::{KeysFault, read_keys, utf8};
use mgs_model::{Name, Short};
use std::alloc::Global;

#[tactic(auto, unfolding(crate::specs::Lines::group_said))]
fn group_line(alloc: Global, text: &str) -> Result<Line<'_>, LineFault>
    ensures { GivesLine result (group_said text.now) }
{
    let (name, rest) = cut_text(text);
    let Some(members) = rest else {
        return Err(LineFault::Bad);
    };
    match words(alloc, members) {
        Ok(members) => Ok(Line::Group { name, members }),
        Err(Short) => Err(LineFault::Short),
    }
}

#[tactic(auto, unfolding(crate::specs::Lines::buffer_said))]
fn buffer_line(text: &str) -> Option<Line<'_>>
    ensures { option_map line_view result ≡ buffer_said text.now }
{
    let (name, rest) = cut_text(text);
    let owner = rest?;
    Some(Line::Buffer { name, owner })
}

#[tactic(auto, unfolding(crate::specs::Lines::owngroup_said))]
fn owngroup_line(text: &str) -> Option<Line<'_>>
    ensures { option_map line_view result ≡ owngroup_said text.now }
{
    let (buffer, rest) = cut_text(text);
    let buffer = name_in(buffer)?;
    let group = rest?;
    Some(Line::OwnGroup { buffer, group })
}

#[tactic(auto, unfolding(crate::specs::Lines::entry_said))]
fn entry_line(text: &str) -> Option<Line<'_>>
    ensures { option_map line_view result ≡ entry_said text.now }
{
    let (buffer, rest) = cut_text(text);
    let buffer = name_in(buffer)?;
    let entry = rest?;
    Some(Line::Entry { buffer, entry })
}

#[tactic(auto, unfolding(crate::specs::Lines::open_said))]
fn open_line(text: &str) -> Option<Line<'_>>
    ensures { option_map line_view result ≡ open_said text.now }
{
    let (label, rest) = cut_text(text);
    let label = name_in(label)?;
    let (user, sizes) = cut_text(rest?);
    let user = any_word(user)?;
    let (rows, cols) = size(sizes?)?;
    Some(Line::Open {
        label,
        user,
        rows,
        cols,
    })
}

#[tactic(auto, unfolding(crate::specs::Lines::text_said))]
fn text_line(alloc: Global, text: &str) -> Result<Line<'_>, LineFault>
    ensures { GivesLine result (text_said text.now) }
{
    let (buffer, rest) = cut_text(text);
    let (Some(buffer), Some(tokens)) = (name_in(buffer), rest) else {
        return Err(LineFault::Bad);
    };
    match read_text(alloc, tokens) {
        Ok(text) => Ok(Line::Text { buffer, text }),
        Err(KeysFault::BadToken) => Err(LineFault::Bad),
        Err(KeysFault::Short) => Err(LineFault::Short),
    }
}

#[tactic(auto, unfolding(crate::specs::Lines::keys_said))]
fn keys_line(alloc: Global, text: &str) -> Result<Line<'_>, LineFault>
    ensures { GivesLine result (keys_said text.now) }
{
    let (label, rest) = cut_text(text);
    let (Some(label), Some(tokens)) = (name_in(label), rest) else {
        return Err(LineFault::Bad);
    };
    match read_keys(alloc, tokens) {
        Ok(keys) => Ok(Line::Keys { label, keys }),
        Err(KeysFault::BadToken) => Err(LineFault::Bad),
        Err(KeysFault::Short) => Err(LineFault::Short),
    }
}

// A line that is not passed over.
#[tactic(auto, unfolding(crate::specs::Lines::said_by_kind))]
fn line_by_kind(alloc: Global, text: &str) -> Result<Line<'_>, LineFault>
    ensures { GivesLine result (said_by_kind text.now) }
{
    let (word, rest) = cut_text(text);
    let (Some(kind), Some(rest)) = (kind_of(word), rest) else {
        return Err(LineFault::Bad);
    };
    match kind {
        LineKind::User => Ok(Line::User { name: rest }),
        LineKind::Group => group_line(alloc, rest),
        LineKind::Buffer => buffer_line(rest).ok_or(LineFault::Bad),
        LineKind::OwnGroup => owngroup_line(rest).ok_or(LineFault::Bad),
        LineKind::Entry => entry_line(rest).ok_or(LineFault::Bad),
        LineKind::Text => text_line(alloc, rest),
        LineKind::Open => open_line(rest).ok_or(LineFault::Bad),
        LineKind::Keys => keys_line(alloc, rest),
        LineKind::Show => name_in(rest)
            .map(|label| Line::Show { label })
            .ok_or(LineFault::Bad),
        LineKind::Close => name_in(rest)
            .map(|label| Line::Close { label })
            .ok_or(LineFault::Bad),
    }
}

fn passed_over(line: &[u8]) -> bool
    ensures { result ≡ is_passed_over line.now }
{
    match line {
        [] => true,
        [first, ..] => *first == b'#',
    }
}

/// What a script's line says, without its line feed.
///
/// `Bad` is answered where it says nothing that is known: such a line is refused. `Short` is out of memory, which comes
/// only where the line says a group, a text or keys.
pub fn read_line(alloc: Global, line: &[u8]) -> Result<Line<'_>, LineFault>
    ensures { GivesLine result (said_in line.now) }
{
    if passed_over(line) {
        return Ok(Line::Nothing);
    }
    match utf8(line) {
        Some(text) => line_by_kind(alloc, text),
        None => Err(LineFault::Bad),
    }
}

// The label that stands after the first word, where that begins a line of keys.
fn label_after(kind: LineKind, rest: &str) -> Option<Name>
    ensures { result ≡ label_after kind rest.now }
{
    match kind {
        LineKind::Keys => name_in(cut_text(rest).0),
        _ => None,
    }
}

// The same of a line that is not passed over.
#[tactic(auto, unfolding(crate::specs::Lines::said_by_kind), using(crate::proofs::Labels::label_said))]
fn label_by_kind(text: &str) -> Option<Name>
    ensures { IfSome (said_by_kind text.now) (λ said. result ≡ label_typed said) }
{
    let (word, rest) = cut_text(text);
    label_after(kind_of(word)?, rest?)
}

/// The label of a script's line of keys; none of any other line that says something. It takes no memory, and so answers
/// where `read_line` is out of memory. Nothing is said of a line for which `read_line` answers `Bad`.
pub fn typed_label(line: &[u8]) -> Option<Name>
    ensures { IfSome (said_in line.now) (λ said. result ≡ label_typed said) }
{
    if passed_over(line) {
        return None;
    }
    label_by_kind(utf8(line)?)
}
