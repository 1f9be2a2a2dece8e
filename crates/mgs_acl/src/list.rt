// Access lists.
ghost use Rattle.std.specs.Prelude.{◌≡◌, ◌<◌, ◌≤◌, ◌↔◌, ◌==◌, [], length, insert, remove, slice_set, OnOk, OnErr, IsOk, IsErrOf};
ghost use Rattle.mgs_acl.specs.declared.list.ListFault.TheVariants.{Full, NoSuchEntry};

use arrayvec::ArrayVec;
use mgs_model::{ENTRY_LIMIT, Entry};
use std::marker::Model;
use thiserror::Error;

/// Why a list was not changed.
#[derive(Clone, Copy, Debug, PartialEq, Eq, Error)]
pub enum ListFault {
    /// The list has `ENTRY_LIMIT` entries (64).
    #[error("the list is full")]
    Full,
    /// The index is past the last entry.
    #[error("there is no such entry")]
    NoSuchEntry,
}

/// An access list: at most `ENTRY_LIMIT` entries (64), in the order in which they are checked (RFC 8881, section 6.2.1). It takes no memory
/// of its own.
#[derive(Drop)]
pub struct List {
    entries: ArrayVec<Entry, ENTRY_LIMIT>,
}

impl Model for List {
    ghost use Rattle.std.specs.Prelude.{List as Items};
    ghost use Rattle.mgs_model.specs.declared.entry.Entry.{Entry};

    ghost Value = { Items Entry };

    ghost view = { λ l. l.entries.items };
}

/// Puts an entry into a list with room. The entry is taken apart and built again, since the prover cannot hand on a value of this type.
fn put(entries: &mut ArrayVec<Entry, ENTRY_LIMIT>, n: usize, entry: Entry)
    requires within { n ≤ length entries.old.items }
    requires room { length entries.old.items < ENTRY_LIMIT }
    ensures { entries.new.items ≡ insert entries.old.items n entry }
{
    let Entry {
        entry_type,
        who,
        mask,
    } = entry;
    entries.insert(
        n,
        Entry {
            entry_type,
            who,
            mask,
        },
    );
}

/// Puts an entry in the place of another, taken apart and built again as in `put`.
fn set(entries: &mut ArrayVec<Entry, ENTRY_LIMIT>, n: usize, entry: Entry)
    requires { n < length entries.old.items }
    ensures { entries.new.items ≡ slice_set entries.old.items n entry }
{
    let Entry {
        entry_type,
        who,
        mask,
    } = entry;
    entries[n] = Entry {
        entry_type,
        who,
        mask,
    };
}

impl List {
    /// The empty list.
    pub fn new() -> List
        ensures { result ≡ [] }
    {
        List {
            entries: ArrayVec::new(),
        }
    }

    /// How many entries there are: `ENTRY_LIMIT` at most.
    pub fn len(&self) -> usize
        ensures value { result ≡ length self.now }
        ensures limit { result ≤ ENTRY_LIMIT }
    {
        self.entries.len()
    }

    /// Whether there is no entry.
    pub fn is_empty(&self) -> bool
        ensures { result ≡ (length self.now == 0) }
    {
        self.len() == 0
    }

    /// The entries, in order.
    pub fn as_slice(&self) -> &[Entry]
        ensures { result.now ≡ self.now }
    {
        self.entries.as_slice()
    }

    /// The same list once more. It takes no memory.
    pub fn copy(&self) -> List
        ensures { result ≡ self.now }
    {
        let mut entries = ArrayVec::new();
        for (i, entry) in self.entries.as_slice().iter().enumerate() {
            put(&mut entries, i, *entry);
        }
        List { entries }
    }

    /// Puts an entry before the one at index `n`, counted from 0, or last where there are `n`.
    ///
    /// The faults are `NoSuchEntry` where there are fewer than `n` entries, and otherwise `Full` where there are `ENTRY_LIMIT`. They change
    /// nothing.
    pub fn insert(&mut self, n: usize, entry: Entry) -> Result<(), ListFault>
        ensures ok { OnOk result (self.new ≡ insert self.old n entry) }
        ensures absent { IsErrOf result NoSuchEntry ↔ (length self.old < n) }
        ensures full { IsErrOf result Full ↔ ((n ≤ length self.old) × (ENTRY_LIMIT ≤ length self.old)) }
        ensures err { OnErr result (self.new ≡ self.old) }
    {
        if n > self.entries.len() {
            return Err(ListFault::NoSuchEntry);
        }
        if self.entries.len() >= ENTRY_LIMIT {
            return Err(ListFault::Full);
        }
        put(&mut self.entries, n, entry);
        Ok(())
    }

    /// Takes out the entry at index `n`, counted from 0. Those after it move up.
    ///
    /// The fault is `NoSuchEntry`, where there are `n` entries or fewer, and changes nothing.
    pub fn delete(&mut self, n: usize) -> Result<(), ListFault>
        ensures ok { OnOk result (self.new ≡ remove self.old n) }
        ensures done { IsOk result ↔ (n < length self.old) }
        ensures absent { IsErrOf result NoSuchEntry ↔ (length self.old ≤ n) }
        ensures err { OnErr result (self.new ≡ self.old) }
    {
        if n >= self.entries.len() {
            return Err(ListFault::NoSuchEntry);
        }
        self.entries.remove(n);
        Ok(())
    }

    /// Puts an entry in the place of the one at index `n`, counted from 0. A list that is full takes it too.
    ///
    /// The fault is `NoSuchEntry`, where there are `n` entries or fewer, and changes nothing.
    pub fn replace(&mut self, n: usize, entry: Entry) -> Result<(), ListFault>
        ensures ok { OnOk result (self.new ≡ slice_set self.old n entry) }
        ensures done { IsOk result ↔ (n < length self.old) }
        ensures absent { IsErrOf result NoSuchEntry ↔ (length self.old ≤ n) }
        ensures err { OnErr result (self.new ≡ self.old) }
    {
        if n >= self.entries.len() {
            return Err(ListFault::NoSuchEntry);
        }
        set(&mut self.entries, n, entry);
        Ok(())
    }
}
