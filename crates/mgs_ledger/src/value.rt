// The rights of a buffer as a value.
ghost use Rattle.std.specs.Prelude.{◌≡◌, slice_get, get_or};
ghost use Rattle.mgs_journal.specs.Rows.{rules_in_rows, births_in_rows};

use mgs_acl::List;
use mgs_buffers::Rights;
use mgs_model::{Name, Owners};
use std::marker::Model;

/// By what access to a buffer is decided, as a value of its own. It takes no memory.
#[derive(Drop)]
pub(crate) struct RightsValue {
    pub(crate) name: Name,
    pub(crate) owners: Owners,
    pub(crate) list: List,
    /// The birth number of the buffer. 0 for one that was there when the ledger went on.
    pub(crate) birth: u64,
}

impl Model for RightsValue {
    ghost use Rattle.mgs_journal.specs.Rows.{KeptRights};

    ghost Value = { KeptRights };

    ghost view = { λ r. record { rules = record { name = r.name; owners = r.owners; entries = r.list }; birth = r.birth } };
}

/// The rights once more, as a value with this birth number.
pub(crate) fn value_of(rights: &Rights<'_>, birth: u64) -> RightsValue
    ensures { result ≡ record { rules = rights.now; birth = birth } }
{
    RightsValue {
        name: *rights.name,
        owners: *rights.owners,
        list: rights.list.copy(),
        birth,
    }
}

/// The value, lent.
pub(crate) fn lent(value: &RightsValue) -> Rights<'_>
    ensures { result ≡ value.now.rules }
{
    Rights {
        name: &value.name,
        owners: &value.owners,
        list: &value.list,
    }
}

/// The value at a place, lent. `None` where there are no more than `i`.
pub(crate) fn lent_at(values: &[RightsValue], i: usize) -> Option<Rights<'_>>
    ensures { result ≡ slice_get (rules_in_rows values.now) i }
{
    if i < values.len() {
        Some(lent(&values[i]))
    } else {
        None
    }
}

/// The birth number of the value at a place. 0 if there are no more than `i`.
pub(crate) fn birth_at(values: &[RightsValue], i: usize) -> u64
    ensures { result ≡ get_or (births_in_rows values.now) i 0 }
{
    match values.get(i) {
        Some(value) => value.birth,
        None => 0,
    }
}
