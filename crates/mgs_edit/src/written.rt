// What a plan puts in, written out.
ghost use Rattle.std.specs.Prelude.{◌≡◌, ◌≤◌, ◌-◌, ◌+◌, ◌++◌, length, replicate, slice_range, IfOk};
ghost use Rattle.std.specs.List.{repeat};
ghost use Rattle.mgs_model.specs.Whites.{refilled};
ghost use Rattle.mgs_fill.specs.Rewriting.{cased};
ghost use Rattle.mgs_edit.specs.Reading.{put_read, PutWithin};

use crate::plan::Put;
use mgs_fill::{Case, change_case, refill};
use mgs_model::Short;
use mgs_text::Text;
use std::alloc::Global;

/// The kill buffer so many times.
fn repeated(alloc: Global, kill: &[char], times: usize) -> Result<Vec<char>, Short>
    ensures { IfOk result (λ v. v.items ≡ repeat times kill.now) }
{
    kill.repeat(alloc, times).map_err(|_| Short)
}

/// So many line feeds, and a stretch of the text.
fn indented<T: Text>(
    alloc: Global,
    text: &T,
    feeds: usize,
    from: usize,
    to: usize,
) -> Result<Vec<char>, Short>
    requires order { from ≤ to }
    requires within { to ≤ length (T.text text.now) }
    ensures { IfOk result (λ v. v.items ≡ replicate feeds 10 ++ slice_range (T.text text.now) from to) }
{
    let Ok(mut chars) = Vec::from_elem(alloc, '\n', feeds) else {
        return Err(Short);
    };
    let white = text.copy(from, to)?;
    match chars.extend_from_slice(&white) {
        Ok(()) => Ok(chars),
        Err(_) => Err(Short),
    }
}

/// What the two characters around a position are in the other order.
fn exchanged<T: Text>(alloc: Global, text: &T, at: usize) -> Result<Vec<char>, Short>
    requires some { 1 ≤ at }
    requires within { at + 1 ≤ length (T.text text.now) }
    ensures { IfOk result (λ v. v.items ≡ slice_range (T.text text.now) at (at + 1) ++ slice_range (T.text text.now) (at - 1) at) }
{
    Vec::from_slice(alloc, &[text.at(at), text.at(at - 1)]).map_err(|_| Short)
}

/// A stretch of the text, in another case.
fn cased<T: Text>(text: &T, from: usize, to: usize, case: Case) -> Result<Vec<char>, Short>
    requires order { from ≤ to }
    requires within { to ≤ length (T.text text.now) }
    ensures { IfOk result (λ v. v.items ≡ cased case (slice_range (T.text text.now) from to)) }
{
    let mut chars = text.copy(from, to)?;
    change_case(&mut chars, case);
    Ok(chars)
}

/// A stretch of the text, filled.
fn filled<T: Text>(
    alloc: Global,
    text: &T,
    from: usize,
    to: usize,
    fill: usize,
) -> Result<Vec<char>, Short>
    requires order { from ≤ to }
    requires within { to ≤ length (T.text text.now) }
    ensures { IfOk result (λ v. v.items ≡ refilled fill (slice_range (T.text text.now) from to)) }
{
    let chars = text.copy(from, to)?;
    refill(alloc, &chars, fill)
}

/// What a plan puts in, written out. `Short`: memory was refused.
pub fn put_chars<T: Text>(
    alloc: Global,
    text: &T,
    kill: &[char],
    put: &Put,
) -> Result<Vec<char>, Short>
    requires { PutWithin (T.text text.now) put.now }
    ensures { IfOk result (λ v. v.items ≡ put_read (T.text text.now) kill.now put.now) }
{
    match *put {
        Put::Nothing => Ok(Vec::new(alloc)),
        Put::Character { put, times } => Vec::from_elem(alloc, put, times).map_err(|_| Short),
        Put::KillBuffer { times } => repeated(alloc, kill, times),
        Put::Indented { feeds, from, to } => indented(alloc, text, feeds, from, to),
        Put::Exchanged { at } => exchanged(alloc, text, at),
        Put::Cased { from, to, case } => cased(text, from, to, case),
        Put::Filled {
            from,
            to,
            fill,
            len: _,
        } => filled(alloc, text, from, to, fill),
    }
}
