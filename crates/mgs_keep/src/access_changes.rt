// Has the journal keep by what access to buffers is decided.
ghost use Rattle.std.specs.Prelude.{◌≡◌, ◌<◌, ◌≤◌, Some, OnOk, OnErr, true, false, length};
ghost use Rattle.arrayvec.specs.ArrayVec.{array_vec_len};
ghost use Rattle.mgs_journal.specs.Rows.{KeptRights};
ghost use Rattle.mgs_keep.specs.Differences.{AreDifferences, AreFound, IsFurther, left_from};
ghost use Rattle.mgs_keep.specs.Keeping.{AreKept, FailsOrCrowds, HasChanged, OrFails, rows_in};

use crate::difference::{Difference, compare};
use arrayvec::ArrayVec;
use mgs_engine::Engine;
use mgs_journal::{Change, Journal, JournalFault};
use mgs_marks::Marked;
use mgs_model::{BUFFER_LIMIT, Name};
use mgs_store::Store;

// The most changes that one event can make: each buffer that is kept is killed, and as many are made.
const MOST: usize = 512;

// Whether a journal keeps no more buffers than a server has.
#[tactic(auto, using(crate::proofs::Rows::few_at, crate::proofs::Rows::many_at))]
fn keeps_few<J: Journal>(journal: &J) -> bool
    ensures few { result ≡ true → length (J.rows journal.now) ≤ 256 }
    ensures many { result ≡ false → 256 < length (J.rows journal.now) }
{
    match journal.rights(BUFFER_LIMIT) {
        None => true,
        Some(_) => false,
    }
}

// Whether there are no more than 256 buffers, as in each server.
#[tactic(auto, using(crate::proofs::Rows::few_at, crate::proofs::Rows::many_at, crate::proofs::Rows::few_rows, crate::proofs::Rows::many_rows))]
fn has_few<T: Marked + Drop, S: Store + Drop>(engine: &Engine<T, S>) -> bool
    ensures few { result ≡ true → length (rows_in engine.now) ≤ 256 }
    ensures many { result ≡ false → 256 < length (rows_in engine.now) }
{
    match engine.rights(BUFFER_LIMIT) {
        None => true,
        Some(_) => false,
    }
}

// Appends what differs at the `i`-th buffer and the `j`-th row. Returns from where the walk goes on, or `None` at its end.
fn push_difference<'a, T: Marked + Drop, S: Store + Drop, J: Journal>(
    engine: &'a Engine<T, S>,
    journal: &J,
    changes: &mut ArrayVec<Change<'a>, MOST>,
    at: (usize, usize),
) -> Option<(usize, usize)>
    requires now { length (rows_in engine.now) ≤ 256 }
    requires kept { length (J.rows journal.now) ≤ 256 }
    requires found { AreFound (rows_in engine.now) (J.rows journal.now) changes.old.items (Some at) }
    requires walk { IsFurther (rows_in engine.now) (J.rows journal.now) (array_vec_len changes.old) (Some at) }
    ensures found { AreFound (rows_in engine.now) (J.rows journal.now) changes.new.items result }
    ensures walk { IsFurther (rows_in engine.now) (J.rows journal.now) (array_vec_len changes.new) result }
    ensures less { left_from (rows_in engine.now) (J.rows journal.now) result < left_from (rows_in engine.now) (J.rows journal.now) (Some at) }
{
    let (i, j) = at;
    match compare(engine, journal, i, j) {
        Difference::Over => None,
        Difference::Same => Some((i + 1, j + 1)),
        Difference::Changed(rights) => {
            changes.push(Change::Set(i, rights));
            Some((i + 1, j + 1))
        }
        Difference::Made(rights, birth) => {
            changes.push(Change::Add(rights, birth));
            Some((i + 1, j))
        }
        Difference::Killed => {
            changes.push(Change::Remove(i));
            Some((i, j + 1))
        }
    }
}

// The changes that make the rows of a journal those of the buffers.
fn differences<'a, T: Marked + Drop, S: Store + Drop, J: Journal>(
    engine: &'a Engine<T, S>,
    journal: &J,
) -> ArrayVec<Change<'a>, MOST>
    requires now { length (rows_in engine.now) ≤ 256 }
    requires kept { length (J.rows journal.now) ≤ 256 }
    ensures { AreDifferences 0 (rows_in engine.now) (J.rows journal.now) result.items }
{
    let mut changes = ArrayVec::new();
    let mut next = Some((0, 0));
    while let Some(at) = next {
        next = push_difference(engine, journal, &mut changes, at);
    }
    changes
}

/// Has the journal keep by what access is decided: what was changed, made and killed by a user, or before there was any. Nothing is asked
/// of it if it keeps that already. `JournalFault`: it did not take the changes, or there are more than 256 buffers or rows.
pub(crate) fn keep_all<T: Marked + Drop, S: Store + Drop, J: Journal>(
    engine: &Engine<T, S>,
    journal: &mut J,
    user: &Option<Name>,
) -> Result<(), JournalFault>
    ensures kept { OnOk result (AreKept J.rows engine.now journal.new) }
    ensures changed { OnOk result (HasChanged J.rows J.does user.now engine.now journal.old journal.new) }
    ensures failed { OnErr result (FailsOrCrowds J.fails J.rows (rows_in engine.now) journal.old journal.new) }
{
    if !has_few(engine) || !keeps_few(journal) {
        return Err(JournalFault);
    }
    let changes = differences(engine, journal);
    if changes.is_empty() {
        return Ok(());
    }
    journal.change(*user, changes.as_slice())
}

/// Has the journal keep by what access is decided, if that can have changed and the journal did not fail.
pub(crate) fn keep<T: Marked + Drop, S: Store + Drop, J: Journal>(
    engine: &Engine<T, S>,
    journal: &mut J,
    failed: &mut bool,
    user: &Option<Name>,
    ruled: bool,
)
    requires { ruled ≡ false → failed.old ≡ false → AreKept J.rows engine.now journal.old }
    ensures kept { failed.new ≡ false → AreKept J.rows engine.now journal.new }
    ensures journal { OrFails (FailsOrCrowds J.fails J.rows (rows_in engine.now)) (HasChanged J.rows J.does user.now engine.now) failed.old journal.old failed.new journal.new }
{
    if *failed || !ruled {
        return;
    }
    match keep_all(engine, journal, user) {
        Ok(()) => {}
        Err(JournalFault) => *failed = true,
    }
}
