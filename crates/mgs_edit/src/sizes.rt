// What an edit and a kill come to, and where that is too much.
ghost use Rattle.std.specs.Prelude.{◌≡◌, ℕ, ◌≤◌, ◌+◌, ◌^◌, List, length, IfSome, None};
ghost use Rattle.mgs_model.specs.Acts.{is_too_large};
ghost use Rattle.mgs_model.specs.Text.{is_edit};
ghost use Rattle.mgs_edit.specs.Reading.{IsKilled, IsPut, IsTooLong, IsUndoTooLong};

use crate::plan::{Change, Finish, Joins, Put, Undone};
use mgs_model::TEXT_LIMIT;

#[tactic(auto, using(crate::proofs::Lengths::length_killed))]
/// How many characters come in, where the kill buffer has `killed`. `None`: more than a number can say.
pub fn put_len(put: &Put, killed: usize) -> Option<usize>
    ensures some { IfSome result (λ n. IsPut put.now killed (λ chars. length chars ≡ n)) }
    ensures none { result ≡ None → IsPut put.now killed (λ chars. 2 ^ 64 ≤ length chars) }
{
    match *put {
        Put::Nothing => Some(0),
        Put::Character { put: _, times } => Some(times),
        Put::KillBuffer { times } => times.checked_mul(killed),
        Put::Indented { feeds, from, to } => feeds.checked_add(to.saturating_sub(from)),
        Put::Exchanged { at: _ } => Some(2),
        Put::Cased { from, to, case: _ } => Some(to.saturating_sub(from)),
        Put::Filled {
            from: _,
            to: _,
            fill: _,
            len,
        } => Some(len),
    }
}

/// Whether a change takes out or puts in anything, where the kill buffer has `killed` characters.
pub fn is_edit(change: &Change, killed: usize) -> bool
    ensures { IsPut change.now.put killed (λ chars. result ≡ is_edit change.now.from change.now.to chars) }
{
    match put_len(&change.put, killed) {
        None => true,
        Some(len) => change.from < change.to || len > 0,
    }
}

/// Whether a change leaves a text of `size` characters with more than a text may have.
pub fn is_too_long(size: usize, change: &Change, killed: usize) -> bool
    requires order { change.now.from ≤ change.now.to }
    requires within { change.now.to ≤ size }
    ensures { IsTooLong size change.now killed result }
{
    let left = size - (change.to - change.from);
    match put_len(&change.put, killed) {
        None => true,
        Some(len) => left > TEXT_LIMIT || len > TEXT_LIMIT - left,
    }
}

/// Whether an undo takes out or puts in anything.
pub fn is_undo_an_edit(undone: &Undone) -> bool
    ensures { (removed : List ℕ) → length removed ≡ undone.now.len → result ≡ is_edit undone.now.from (undone.now.from + undone.now.gone) removed }
{
    undone.gone > 0 || undone.len > 0
}

/// Whether an undo leaves a text of `size` characters with more than a text may have.
pub fn is_undo_too_long(size: usize, undone: &Undone) -> bool
    requires { undone.now.from + undone.now.gone ≤ size }
    ensures { IsUndoTooLong size undone.now result }
{
    let left = size - undone.gone;
    left > TEXT_LIMIT || undone.len > TEXT_LIMIT - left
}

/// Whether a kill leaves a kill buffer of `killed` characters with more than it may have.
pub fn is_kill_too_large(finish: &Finish, killed: usize) -> bool
    ensures { IsKilled finish.now.kill killed (λ kill. result ≡ is_too_large kill) }
{
    let Some(piece) = finish.kill else {
        return false;
    };
    let len = piece.to.saturating_sub(piece.from);
    match piece.joins {
        Joins::New => len > TEXT_LIMIT,
        Joins::Behind | Joins::InFront => killed > TEXT_LIMIT || len > TEXT_LIMIT - killed,
    }
}
