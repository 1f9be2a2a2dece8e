// What differs between a buffer and the row that is kept of it.
ghost use Rattle.std.specs.Prelude.{◌≡◌, slice_get, true, false};
ghost use Rattle.mgs_keep.specs.Differences.{Differs, IsSameBuffer};
ghost use Rattle.mgs_keep.specs.Keeping.{rows_in};

use mgs_buffers::Rights;
use mgs_engine::Engine;
use mgs_journal::{Journal, are_same, is_same_name};
use mgs_marks::Marked;
use mgs_store::Store;
use std::marker::Model;

/// The rights of a buffer, and its birth number.
#[derive(Drop)]
struct Row<'a> {
    rights: Rights<'a>,
    birth: u64,
}

impl<'a> Model for Row<'a> {
    ghost use Rattle.mgs_journal.specs.Rows.{KeptRights};

    ghost Value = { KeptRights };

    ghost view = { λ r. record { rules = r.rights; birth = r.birth } };
}

/// What differs between a buffer and a row.
#[derive(Drop)]
pub(crate) enum Difference<'a> {
    /// There is no buffer more, and no row.
    Over,
    /// The row is as the buffer is.
    Same,
    /// The owner, the owning group or the list of the buffer differs from its row.
    Changed(Rights<'a>),
    /// The buffer was made: there is no row of it. With it its birth number.
    Made(Rights<'a>, u64),
    /// The row's buffer was killed.
    Killed,
}

// The `i`-th buffer as a row. `None` if there are no more than `i`.
#[tactic(auto, using(crate::proofs::Rows::row_at, crate::proofs::Rows::no_row_at))]
fn row_now<'a, T: Marked + Drop, S: Store + Drop>(
    engine: &'a Engine<T, S>,
    i: usize,
) -> Option<Row<'a>>
    ensures { result ≡ slice_get (rows_in engine.now) i }
{
    let rights = engine.rights(i)?;
    let birth = engine.birth(rights.name);
    Some(Row { rights, birth })
}

// The `j`-th row that is kept. `None` if no more than `j` are kept.
#[tactic(auto, using(crate::proofs::Rows::kept_at, crate::proofs::Rows::none_kept_at))]
fn row_kept<J: Journal>(journal: &J, j: usize) -> Option<Row<'_>>
    ensures { result ≡ slice_get (J.rows journal.now) j }
{
    let rights = journal.rights(j)?;
    let birth = journal.birth(j);
    Some(Row { rights, birth })
}

// Whether both are of the same buffer.
fn is_same_buffer(now: &Row<'_>, kept: &Row<'_>) -> bool
    ensures same { result ≡ true → IsSameBuffer now.now kept.now }
    ensures other { result ≡ false → IsSameBuffer now.now kept.now → ⊥ }
{
    is_same_name(now.rights.name, kept.rights.name) && now.birth == kept.birth
}

/// What differs between the `i`-th buffer and the `j`-th row.
pub(crate) fn compare<'a, T: Marked + Drop, S: Store + Drop, J: Journal>(
    engine: &'a Engine<T, S>,
    journal: &J,
    i: usize,
    j: usize,
) -> Difference<'a>
    ensures { Differs (slice_get (rows_in engine.now) i) (slice_get (J.rows journal.now) j) result }
{
    let Some(kept) = row_kept(journal, j) else {
        return match row_now(engine, i) {
            None => Difference::Over,
            Some(now) => Difference::Made(now.rights, now.birth),
        };
    };
    match row_now(engine, i) {
        None => Difference::Killed,
        Some(now) => {
            if !is_same_buffer(&now, &kept) {
                return Difference::Killed;
            }
            if are_same(&now.rights, &kept.rights) {
                return Difference::Same;
            }
            Difference::Changed(now.rights)
        }
    }
}
