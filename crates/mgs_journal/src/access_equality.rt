// Whether access is decided by the same.
ghost use Rattle.std.specs.Prelude.{◌≡◌, ◌≤◌, length, take, true, false};

use mgs_acl::{Entry, List};
use mgs_buffers::Rights;
use mgs_model::{EntryType, Name, Owners, Who};

fn is_same_type(a: EntryType, b: EntryType) -> bool
    ensures same { result ≡ true → a ≡ b }
    ensures all { a ≡ b → result ≡ true }
{
    match a {
        EntryType::Allow => match b {
            EntryType::Allow => true,
            EntryType::Deny => false,
        },
        EntryType::Deny => match b {
            EntryType::Allow => false,
            EntryType::Deny => true,
        },
    }
}

fn is_same_who(a: &Who, b: &Who) -> bool
    ensures same { result ≡ true → a.now ≡ b.now }
    ensures all { a.now ≡ b.now → result ≡ true }
{
    match (a, b) {
        (Who::Owner, Who::Owner) => true,
        (Who::OwningGroup, Who::OwningGroup) => true,
        (Who::Everyone, Who::Everyone) => true,
        (Who::User(a), Who::User(b)) => is_same_name(a, b),
        (Who::Group(a), Who::Group(b)) => is_same_name(a, b),
        _ => false,
    }
}

/// Whether two names are the same.
#[tactic(auto, using(mgs_model::proofs::Blind::same_names))]
pub fn is_same_name(a: &Name, b: &Name) -> bool
    ensures same { result ≡ true → a.now ≡ b.now }
    ensures all { a.now ≡ b.now → result ≡ true }
{
    a == b
}

fn is_same_entry(a: &Entry, b: &Entry) -> bool
    ensures same { result ≡ true → a.now ≡ b.now }
    ensures all { a.now ≡ b.now → result ≡ true }
{
    is_same_type(a.entry_type, b.entry_type)
        && is_same_who(&a.who, &b.who)
        && a.mask.bits() == b.mask.bits()
}

fn are_same_entries(a: &[Entry], b: &[Entry]) -> bool
    ensures same { result ≡ true → a.now ≡ b.now }
    ensures all { a.now ≡ b.now → result ≡ true }
{
    if a.len() != b.len() {
        return false;
    }
    let mut i = 0;
    while i < a.len() {
        if !is_same_entry(&a[i], &b[i]) {
            return false;
        }
        i += 1;
    }
    true
}

/// Whether two lists have the same entries in the same order.
pub fn is_same_list(a: &List, b: &List) -> bool
    ensures same { result ≡ true → a.now ≡ b.now }
    ensures all { a.now ≡ b.now → result ≡ true }
{
    are_same_entries(a.as_slice(), b.as_slice())
}

/// Whether two groups are the same, or there is none in both places.
pub fn is_same_group(a: &Option<Name>, b: &Option<Name>) -> bool
    ensures same { result ≡ true → a.now ≡ b.now }
    ensures all { a.now ≡ b.now → result ≡ true }
{
    match (a, b) {
        (None, None) => true,
        (Some(a), Some(b)) => is_same_name(a, b),
        _ => false,
    }
}

fn are_same_owners(a: &Owners, b: &Owners) -> bool
    ensures same { result ≡ true → a.now ≡ b.now }
    ensures all { a.now ≡ b.now → result ≡ true }
{
    is_same_name(&a.owner, &b.owner) && is_same_group(&a.group, &b.group)
}

/// Whether access to two buffers is decided by the same: name, owner, owning group and all entries.
pub fn are_same(a: &Rights<'_>, b: &Rights<'_>) -> bool
    ensures same { result ≡ true → a.now ≡ b.now }
    ensures all { a.now ≡ b.now → result ≡ true }
{
    is_same_name(a.name, b.name)
        && are_same_owners(a.owners, b.owners)
        && is_same_list(a.list, b.list)
}
