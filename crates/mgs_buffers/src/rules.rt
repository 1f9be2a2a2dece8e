// Changes of a buffer's access list entry by entry, and of its owner and owning group by name: each by a user, whose rights are
// judged first, and each with its own faults.
ghost use Rattle.std.specs.Prelude.{◌≡◌, true, OnOk, OnErr, Ok, insert, length, remove, slice_set};
ghost use Rattle.mgs_model.specs.Apply.{change_first};
ghost use Rattle.mgs_model.specs.declared.entry.Decision.TheVariants.{Granted};
ghost use Rattle.mgs_model.specs.declared.owners.NewOwner.TheVariants.{ToUser, ToGroup};
ghost use Rattle.mgs_buffers.specs.MarkedBuffer.{marked_named, marked_owners_set};
ghost use Rattle.mgs_buffers.specs.declared.rules.ListChange.TheVariants.{Insert, Delete, Replace};
ghost use Rattle.mgs_buffers.specs.Rules.{ChangeAnswers, EntriesAnswer, GroupAnswer, InsertAnswers, ListAnswers, OwnerAnswer};
ghost use Rattle.mgs_buffers.specs.Rules.{entries_changed, fault_of, is_group_known, list_changed};

use crate::buffers::Buffers;
use crate::refusals::{EntriesFault, OwnersFault};
use mgs_acl::{Entry, List, ListFault};
use mgs_marks::Marked;
use mgs_model::{Mask, Name, Right};
use mgs_policy::Directory;

/// What becomes of a list at an index, counted from 0.
#[derive(Drop)]
pub(crate) enum ListChange {
    /// An entry comes before the one there, or last.
    Insert(Entry),
    /// The entry there goes.
    Delete,
    /// An entry takes its place.
    Replace(Entry),
}

// The fault of a list, as one of a user who changes it.
fn fault_of(fault: ListFault) -> EntriesFault
    ensures { result ≡ fault_of fault }
{
    match fault {
        ListFault::Full => EntriesFault::Full,
        ListFault::NoSuchEntry => EntriesFault::NoSuchEntry,
    }
}

fn insert(list: &mut List, n: usize, entry: Entry) -> Result<(), EntriesFault>
    ensures answer { InsertAnswers result true Granted n (length list.old) }
    ensures ok { OnOk result (list.new ≡ insert list.old n entry) }
{
    if let Err(fault) = list.insert(n, entry) {
        return Err(fault_of(fault));
    }
    Ok(())
}

fn delete(list: &mut List, n: usize) -> Result<(), EntriesFault>
    ensures answer { ChangeAnswers result true Granted n (length list.old) }
    ensures ok { OnOk result (list.new ≡ remove list.old n) }
{
    if let Err(fault) = list.delete(n) {
        return Err(fault_of(fault));
    }
    Ok(())
}

fn replace(list: &mut List, n: usize, entry: Entry) -> Result<(), EntriesFault>
    ensures answer { ChangeAnswers result true Granted n (length list.old) }
    ensures ok { OnOk result (list.new ≡ slice_set list.old n entry) }
{
    if let Err(fault) = list.replace(n, entry) {
        return Err(fault_of(fault));
    }
    Ok(())
}

// A list is changed by who may change it.
fn change_list(list: &mut List, n: usize, change: ListChange) -> Result<(), EntriesFault>
    ensures answer { ListAnswers change result true Granted n (length list.old) }
    ensures ok { OnOk result (list.new ≡ list_changed change n list.old) }
{
    match change {
        ListChange::Insert(entry) => insert(list, n, entry),
        ListChange::Delete => delete(list, n),
        ListChange::Replace(entry) => replace(list, n, entry),
    }
}

// Whether there is no group, or one of the directory.
fn is_group_known(directory: &Directory, group: &Option<Name>) -> bool
    ensures { result ≡ is_group_known directory.now group.now }
{
    match group {
        None => true,
        Some(group) => directory.has_group(group),
    }
}

impl<T: Marked + Drop> Buffers<T> {
    // A change of the buffer's access list by a user, where WRITE_ACL is granted to him.
    fn change_list_as(
        &mut self,
        directory: &Directory,
        user: &Name,
        name: &Name,
        n: usize,
        change: ListChange,
    ) -> Result<(), EntriesFault>
        ensures answer { EntriesAnswer self.old directory.now user.now name.now change n result }
        ensures ok { OnOk result (self.new ≡ entries_changed name.now change n self.old) }
        ensures err { OnErr result (self.new ≡ self.old) }
    {
        if !self.has(name) {
            return Err(EntriesFault::NoBuffer);
        }
        if let Err(decision) = self.permit(directory, user, name, Mask::of(Right::WriteAcl)) {
            return Err(EntriesFault::Denied(decision));
        }
        let mut list = self.copy_list(name);
        if let Err(fault) = change_list(&mut list, n, change) {
            return Err(fault);
        }
        match self.set_list_as(directory, user, name, list) {
            Ok(()) => Ok(()),
            Err(decision) => Err(EntriesFault::Denied(decision)),
        }
    }

    /// Puts an entry into the buffer's access list before the one at index `n`, counted from 0, or last where there are `n`, where
    /// WRITE_ACL is granted to the user.
    ///
    /// The faults, in this order: `NoBuffer` where there is no such buffer; `Denied` with what the list decides, which is not `Granted`;
    /// `NoSuchEntry` where there are fewer than `n` entries; `Full` where there are 64. They change nothing. It takes no memory.
    pub fn insert_entry_as(
        &mut self,
        directory: &Directory,
        user: &Name,
        name: &Name,
        n: usize,
        entry: Entry,
    ) -> Result<(), EntriesFault>
        ensures answer { EntriesAnswer self.old directory.now user.now name.now (Insert entry) n result }
        ensures ok { OnOk result (self.new ≡ entries_changed name.now (Insert entry) n self.old) }
        ensures err { OnErr result (self.new ≡ self.old) }
    {
        self.change_list_as(directory, user, name, n, ListChange::Insert(entry))
    }

    /// Takes the entry at index `n`, counted from 0, out of the buffer's access list, where WRITE_ACL is granted to the user.
    ///
    /// The faults, in this order: `NoBuffer` where there is no such buffer; `Denied` with what the list decides, which is not `Granted`;
    /// `NoSuchEntry` where there are `n` entries or fewer. They change nothing. It takes no memory.
    pub fn delete_entry_as(
        &mut self,
        directory: &Directory,
        user: &Name,
        name: &Name,
        n: usize,
    ) -> Result<(), EntriesFault>
        ensures answer { EntriesAnswer self.old directory.now user.now name.now Delete n result }
        ensures ok { OnOk result (self.new ≡ entries_changed name.now Delete n self.old) }
        ensures err { OnErr result (self.new ≡ self.old) }
    {
        self.change_list_as(directory, user, name, n, ListChange::Delete)
    }

    /// Puts an entry in the place of the one at index `n` of the buffer's access list, counted from 0, where WRITE_ACL is granted to the
    /// user.
    ///
    /// The faults, in this order: `NoBuffer` where there is no such buffer; `Denied` with what the list decides, which is not `Granted`;
    /// `NoSuchEntry` where there are `n` entries or fewer. They change nothing. It takes no memory.
    pub fn replace_entry_as(
        &mut self,
        directory: &Directory,
        user: &Name,
        name: &Name,
        n: usize,
        entry: Entry,
    ) -> Result<(), EntriesFault>
        ensures answer { EntriesAnswer self.old directory.now user.now name.now (Replace entry) n result }
        ensures ok { OnOk result (self.new ≡ entries_changed name.now (Replace entry) n self.old) }
        ensures err { OnErr result (self.new ≡ self.old) }
    {
        self.change_list_as(directory, user, name, n, ListChange::Replace(entry))
    }

    /// A user of the directory owns the buffer from now on, where WRITE_OWNER is granted to the user who acts.
    ///
    /// The faults, in this order: `NoBuffer` where there is no such buffer; `Denied` with what the list decides, which is not `Granted`;
    /// `NoSuchUser` where the directory has no such user. They change nothing. It takes no memory.
    pub fn give_to_user_as(
        &mut self,
        directory: &Directory,
        user: &Name,
        name: &Name,
        owner: Name,
    ) -> Result<(), OwnersFault>
        ensures answer { OwnerAnswer self.old directory.now user.now name.now owner result }
        ensures ok { OnOk result (self.new ≡ change_first (marked_named name.now) (marked_owners_set (ToUser owner)) self.old) }
        ensures err { OnErr result (self.new ≡ self.old) }
    {
        if !self.has(name) {
            return Err(OwnersFault::NoBuffer);
        }
        if let Err(decision) = self.permit(directory, user, name, Mask::of(Right::WriteOwner)) {
            return Err(OwnersFault::Denied(decision));
        }
        if !directory.has_user(&owner) {
            return Err(OwnersFault::NoSuchUser);
        }
        match self.set_owner_as(directory, user, name, owner) {
            Ok(()) => Ok(()),
            Err(decision) => Err(OwnersFault::Denied(decision)),
        }
    }

    /// A group of the directory owns the buffer from now on, or none does, where WRITE_OWNER is granted to the user who acts.
    ///
    /// The faults, in this order: `NoBuffer` where there is no such buffer; `Denied` with what the list decides, which is not `Granted`;
    /// `NoSuchGroup` where the directory has no such group. They change nothing. It takes no memory.
    pub fn give_to_group_as(
        &mut self,
        directory: &Directory,
        user: &Name,
        name: &Name,
        group: Option<Name>,
    ) -> Result<(), OwnersFault>
        ensures answer { GroupAnswer self.old directory.now user.now name.now group result }
        ensures ok { OnOk result (self.new ≡ change_first (marked_named name.now) (marked_owners_set (ToGroup group)) self.old) }
        ensures err { OnErr result (self.new ≡ self.old) }
    {
        if !self.has(name) {
            return Err(OwnersFault::NoBuffer);
        }
        if let Err(decision) = self.permit(directory, user, name, Mask::of(Right::WriteOwner)) {
            return Err(OwnersFault::Denied(decision));
        }
        if !is_group_known(directory, &group) {
            return Err(OwnersFault::NoSuchGroup);
        }
        match self.set_group_as(directory, user, name, group) {
            Ok(()) => Ok(()),
            Err(decision) => Err(OwnersFault::Denied(decision)),
        }
    }
}
