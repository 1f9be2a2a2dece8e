// The rights of a buffer as its events tell them.
ghost use Rattle.std.specs.Prelude.{◌≡◌, ◌==◌, ◌<◌, ◌≤◌, ◌||◌, bytes_eq, length, position, IfOk, IfSome};
ghost use Rattle.std.specs.List.{before_first, after_first};
ghost use Rattle.mgs_rewind.specs.RowChanges.{is_known, is_row_of, rights_in};

use std::alloc::{AllocError, Global};
use std::marker::Model;

/// The rights of a buffer as its events tell them. They are not known if the list is empty.
#[derive(Drop)]
pub struct ToldRights {
    pub(crate) name: Vec<u8>,
    pub(crate) owner: Vec<u8>,
    pub(crate) group: Vec<u8>,
    pub(crate) list: Vec<u8>,
}

impl Model for ToldRights {
    ghost use Rattle.mgs_rewind.specs.RowChanges.{ToldRights as Told};

    ghost Value = { Told };

    ghost view = { λ r. record { name = r.name.items; owner = r.owner.items; group = r.group.items; list = r.list.items } };
}

impl ToldRights {
    /// The buffer's name.
    pub fn name(&self) -> &[u8]
        ensures { result.now ≡ self.now.name }
    {
        self.name.as_slice()
    }

    /// The owner's name.
    pub fn owner(&self) -> &[u8]
        ensures { result.now ≡ self.now.owner }
    {
        self.owner.as_slice()
    }

    /// The owning group's name. It is empty if there is none.
    pub fn group(&self) -> &[u8]
        ensures { result.now ≡ self.now.group }
    {
        self.group.as_slice()
    }

    /// The entries of the list, parted by `; `, or a dash if there is none.
    pub fn list(&self) -> &[u8]
        ensures { result.now ≡ self.now.list }
    {
        self.list.as_slice()
    }

    /// Whether the rights are known.
    pub fn is_known(&self) -> bool
        ensures { result ≡ is_known self.now }
    {
        !self.list().is_empty()
    }

    // Whether it is the row of the buffer of that name.
    pub(crate) fn is_of(&self, name: &[u8]) -> bool
        ensures { result ≡ is_row_of name.now self.now }
    {
        *name == *self.name()
    }
}

/// The index of the first byte of that value.
pub(crate) fn place_of(text: &[u8], byte: u8) -> Option<usize>
    ensures at { result ≡ position (λ b. b == byte) text.now }
    ensures within { IfSome result (λ i. i < length text.now) }
{
    text.iter().position(|b| *b == byte)
}

/// The text up to the first byte of that value, and the text after it.
pub(crate) fn cut_at(text: &[u8], byte: u8) -> (&[u8], &[u8])
    ensures piece { result.0.now ≡ before_first (λ b. b == byte) text.now }
    ensures rest { result.1.now ≡ after_first (λ b. b == byte) text.now }
{
    match place_of(text, byte) {
        None => (text, &[]),
        Some(at) => (&text[..at], &text[at + 1..]),
    }
}

/// The rights that a detail `OWNER:GROUP LIST` tells.
pub(crate) fn read_rights(
    alloc: Global,
    name: &[u8],
    detail: &[u8],
) -> Result<ToldRights, AllocError>
    ensures { IfOk result (λ r. r ≡ rights_in name.now detail.now) }
{
    let (owner, rest) = cut_at(detail, b':');
    let (group, list) = cut_at(rest, b' ');
    Ok(ToldRights {
        name: Vec::from_slice(alloc, name)?,
        owner: Vec::from_slice(alloc, owner)?,
        group: Vec::from_slice(alloc, group)?,
        list: Vec::from_slice(alloc, list)?,
    })
}
