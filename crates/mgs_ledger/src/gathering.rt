// What is told is gathered, and counted if it is told again.
ghost use Rattle.std.specs.Prelude.{◌≡◌, ◌<◌, ◌++◌, ◌∷◌, [], Some, length, position, slice_get, slice_set, vec_len, IfSome, OnOk};
ghost use Rattle.mgs_ledger.specs.Counting.{counted, counting_place, first_row, gathering, has_row, is_counting, is_one, kind_of, one_more, takes_row, tally_if};
ghost use Rattle.mgs_ledger.specs.declared.batch.EventKind.TheVariants.{One};
ghost use Rattle.mgs_ledger.specs.Telling.{IsGathered};

use crate::batch::{EventKind, Gathered, told_user};
use crate::ledger_fault::LedgerFault;
use crate::repeat::is_same_kind;
use crate::tally::Tally;
use mgs_journal::Told;
use mgs_model::{Decision, Name};
use mgs_wire::Refusal;

// Whether an event counts those of this row's second and kind, and can count one more.
fn is_counting(row: &Gathered, event: &Gathered) -> bool
    ensures { result ≡ is_counting row.now event.now }
{
    event.at == row.at && (is_same_kind(row.kind, event.kind) && event.count < u64::MAX)
}

// The index of the row that counts one more event of this one's second and kind.
fn counting_place(row: &Gathered, events: &[Gathered]) -> Option<usize>
    ensures value { result ≡ counting_place row.now events.now }
    ensures within { IfSome result (λ i. i < length events.now) }
{
    events.iter().position(|event| is_counting(row, event))
}

// Whether there is such a row.
fn has_row(row: &Gathered, events: &[Gathered]) -> bool
    ensures { result ≡ has_row row.now events.now }
{
    counting_place(row, events).is_some()
}

// Counts one more at an index.
fn count_at(events: &mut Vec<Gathered>, i: usize)
    requires { i < vec_len events.old }
    ensures { (e : _) → slice_get events.old.items i ≡ Some e → events.new.items ≡ slice_set events.old.items i (one_more e) }
{
    events[i].count = events[i].count.saturating_add(1);
}

fn push_row(events: &mut Vec<Gathered>, row: &Gathered) -> Result<(), LedgerFault>
    ensures { OnOk result (events.new.items ≡ events.old.items ++ row.now ∷ []) }
{
    let _kind: Option<EventKind> = None;
    let _told: Option<Told> = None;
    let _name: Option<Name> = None;
    let _decision: Option<Decision> = None;
    let _cause: Option<Refusal> = None;
    events.push(*row)?;
    Ok(())
}

// Counts one more event of this row's second and kind, or adds the row.
fn count(events: &mut Vec<Gathered>, row: &Gathered) -> Result<(), LedgerFault>
    ensures { OnOk result (events.new.items ≡ counted row.now events.old.items) }
{
    match counting_place(row, events.as_slice()) {
        Some(i) => {
            count_at(events, i);
            Ok(())
        }
        None => push_row(events, row),
    }
}

// The row of what was told by itself.
fn one_row(at: i64, told: &Told) -> Gathered
    ensures { result ≡ first_row at (One told.now) }
{
    Gathered {
        at,
        kind: EventKind::One(*told),
        count: 1,
    }
}

// Whether it is an event of its own, and none that counts what its user causes past the limit.
fn is_one(is_equal: bool, is_full: bool) -> bool
    ensures { result ≡ is_one is_equal is_full }
{
    is_equal || !is_full
}

// Whether it takes one of its user's rows.
fn takes_row(is_equal: bool, is_full: bool) -> bool
    ensures { result ≡ takes_row is_equal is_full }
{
    !(is_equal || is_full)
}

fn kind_of(told: &Told, is_one: bool) -> EventKind
    ensures { result ≡ kind_of told.now is_one }
{
    if is_one {
        EventKind::One(*told)
    } else {
        EventKind::More(told_user(*told))
    }
}

fn row_of(at: i64, told: &Told, is_one: bool) -> Gathered
    ensures { result ≡ first_row at (kind_of told.now is_one) }
{
    Gathered {
        at,
        kind: kind_of(told, is_one),
        count: 1,
    }
}

// Tallies a row, if what is told takes one.
fn tally_row(tally: &mut Tally, at: i64, told: &Told, takes_row: bool) -> Result<(), LedgerFault>
    ensures { OnOk result (tally.new ≡ tally_if takes_row told.now at tally.old) }
{
    if takes_row {
        tally.add(at, &told_user(*told))?;
    }
    Ok(())
}

/// Gathers what is told at this second. There is room for one more.
pub(crate) fn gather(
    events: &mut Vec<Gathered>,
    tally: &mut Tally,
    at: i64,
    told: &Told,
) -> Result<(), LedgerFault>
    ensures { OnOk result (IsGathered told.now (gathering events.old.items tally.old) (gathering events.new.items tally.new)) }
{
    let is_equal = has_row(&one_row(at, told), events.as_slice());
    let is_full = tally.has_all_rows(at, &told_user(*told));
    let row = row_of(at, told, is_one(is_equal, is_full));
    count(events, &row)?;
    tally_row(tally, at, told, takes_row(is_equal, is_full))
}
