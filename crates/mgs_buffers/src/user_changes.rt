// Changes of a buffer, each by a user, whose rights are judged first.
ghost use Rattle.std.specs.Prelude.{◌≡◌, ◌+◌, ◌-◌, ◌<◌, ◌≤◌, ◌^◌, length, OnOk, OnErr, None, true, false};
ghost use Rattle.std.specs.Map.{lookup, remove_entry};
ghost use Rattle.mgs_model.specs.Names.{same_name};
ghost use Rattle.mgs_model.specs.Access.{decision};
ghost use Rattle.mgs_model.specs.Apply.{change_first};
ghost use Rattle.mgs_model.specs.declared.owners.NewOwner.TheVariants.{ToUser, ToGroup};
ghost use Rattle.mgs_buffers.specs.Changing.{marked_updated, update_mask, writes};
ghost use Rattle.mgs_buffers.specs.Contents.{Changed};
ghost use Rattle.mgs_buffers.specs.MarkedBuffer.{has_buffer, HasBuffer, marked_at, marked_edited, marked_named, without_marked};
ghost use Rattle.mgs_buffers.specs.MarkedBuffer.{marked_list_set, marked_owners_set, marked_unmodified};
ghost use Rattle.mgs_buffers.specs.Permitting.{EditAnswers, PermitAnswers, mask_decision};

use crate::buffer::{Buffer, read_and_write};
use crate::buffers::Buffers;
use crate::refusals::EditFault;
use indexmap::IndexMap;
use mgs_marks::Marked;
use mgs_model::{Decision, Mask, Name, Right, Short};
use mgs_policy::Directory;

/// What changes of a buffer without its text, and without memory.
#[derive(Drop)]
pub(crate) enum Update {
    /// Its modified flag is not set any more.
    Unmodify,
    /// Another user owns it.
    SetOwners(Name),
    /// Another group owns it, or none does.
    Regroup(Option<Name>),
    /// Another access list takes the place of its own.
    SetList(mgs_acl::List),
}

impl Update {
    // The rights that it needs.
    fn mask(&self) -> Mask
        ensures { result ≡ update_mask self.now }
    {
        match self {
            Update::Unmodify => read_and_write(),
            Update::SetOwners(_) => Mask::of(Right::WriteOwner),
            Update::Regroup(_) => Mask::of(Right::WriteOwner),
            Update::SetList(_) => Mask::of(Right::WriteAcl),
        }
    }
}

impl<T: Marked + Drop> Buffer<T> {
    // Takes back that the buffer was edited: its modified flag is not set any more.
    pub(crate) fn unmodify(&mut self)
        ensures { Changed T.text T.marks marked_unmodified self.old self.new }
    {
        self.modified = false;
    }

    fn set_owners(&mut self, owner: Name)
        ensures { Changed T.text T.marks (marked_owners_set (ToUser owner)) self.old self.new }
    {
        self.owners.owner = owner;
    }

    fn set_group(&mut self, group: Option<Name>)
        ensures { Changed T.text T.marks (marked_owners_set (ToGroup group)) self.old self.new }
    {
        self.owners.group = group;
    }

    fn set_list(&mut self, list: mgs_acl::List)
        ensures { Changed T.text T.marks (marked_list_set list) self.old self.new }
    {
        self.list = list;
    }

    fn update(&mut self, update: Update)
        ensures { Changed T.text T.marks (marked_updated update) self.old self.new }
    {
        match update {
            Update::Unmodify => self.unmodify(),
            Update::SetOwners(owner) => self.set_owners(owner),
            Update::Regroup(group) => self.set_group(group),
            Update::SetList(list) => self.set_list(list),
        }
    }

    // An update by a user, where the list grants him the rights that it needs.
    fn update_as(
        &mut self,
        directory: &Directory,
        user: &Name,
        update: Update,
    ) -> Result<(), Decision>
        ensures answer { PermitAnswers result (decision directory.now self.old.owners user.now self.old.list (update_mask update)) }
        ensures ok { OnOk result (Changed T.text T.marks (marked_updated update) self.old self.new) }
        ensures err { OnErr result (Changed T.text T.marks (λ k. k) self.old self.new) }
    {
        self.permit(directory, user, update.mask())?;
        self.update(update);
        Ok(())
    }

    // The edit of a user, where the list grants him the rights of a mask. They are judged before memory is taken.
    fn edit_as(
        &mut self,
        directory: &Directory,
        user: &Name,
        mask: Mask,
        a: usize,
        b: usize,
        put: &[char],
    ) -> Result<(), EditFault>
        requires order { a ≤ b }
        requires within { b ≤ length (T.text self.old.text) }
        requires serial { self.old.record.serial < 2 ^ 64 - 1 }
        ensures answer { EditAnswers result (decision directory.now self.old.owners user.now self.old.list mask) }
        ensures ok { OnOk result (Changed T.text T.marks (marked_edited a b put.now) self.old self.new) }
        ensures err { OnErr result (Changed T.text T.marks (λ k. k) self.old self.new) }
    {
        match self.permit(directory, user, mask) {
            Ok(()) => {}
            Err(decision) => return Err(EditFault::Denied(decision)),
        }
        match self.edit(a, b, put) {
            Ok(()) => Ok(()),
            Err(Short) => Err(EditFault::Short),
        }
    }
}

// Takes a buffer out. The others keep their order.
fn take_out<T: Marked + Drop>(all: &mut IndexMap<Name, Buffer<T>>, name: &Name)
    ensures entries { all.new.entries ≡ remove_entry (same_name name.now) all.old.entries }
    ensures gone { lookup (same_name name.now) all.new.entries ≡ None }
{
    all.shift_remove(name);
}

impl<T: Marked + Drop> Buffers<T> {
    /// Puts characters in place of those from `a` up to `b` of the buffer's text, moves its marks, records the edit under the
    /// next serial, and sets the buffer's modified flag, where all rights of a mask are granted to the user; a right to write is
    /// among them. Where nothing is taken out and nothing put in, all stays as it is. `Denied`: what the buffer's access list
    /// decides, which is not `Granted`. `Short`: they are granted, and memory was refused. Both leave all as it was.
    pub fn edit_as(
        &mut self,
        directory: &Directory,
        user: &Name,
        name: &Name,
        mask: Mask,
        a: usize,
        b: usize,
        put: &[char],
    ) -> Result<(), EditFault>
        requires kept { HasBuffer name.now self.old }
        requires writes { writes mask ≡ true }
        requires order { a ≤ b }
        requires within { b ≤ length (marked_at name.now self.old).buffer.text }
        requires serial { (marked_at name.now self.old).buffer.serial < 2 ^ 64 - 1 }
        requires room { length (marked_at name.now self.old).buffer.text + length put.now ≤ 1048576 + (b - a) }
        ensures answer { let k = (marked_at name.now self.old).buffer in EditAnswers result (decision directory.now k.owners user.now k.entries mask) }
        ensures ok { OnOk result (self.new ≡ change_first (marked_named name.now) (marked_edited a b put.now) self.old) }
        ensures err { OnErr result (self.new ≡ self.old) }
    {
        let at = self.place_of(name);
        let (_, buffer) = self.all.pair_mut(at);
        buffer.edit_as(directory, user, mask, a, b, put)
    }

    // An update of the buffer by a user, where the rights that it needs are granted to him.
    fn update_as(
        &mut self,
        directory: &Directory,
        user: &Name,
        name: &Name,
        update: Update,
    ) -> Result<(), Decision>
        requires { HasBuffer name.now self.old }
        ensures answer { PermitAnswers result (mask_decision directory.now (marked_at name.now self.old).buffer user.now (update_mask update)) }
        ensures ok { OnOk result (self.new ≡ change_first (marked_named name.now) (marked_updated update) self.old) }
        ensures err { OnErr result (self.new ≡ self.old) }
    {
        let at = self.place_of(name);
        let (_, buffer) = self.all.pair_mut(at);
        buffer.update_as(directory, user, update)
    }

    /// Clears the buffer's modified flag, where READ_DATA and WRITE_DATA are granted to the user. Else the answer is what the
    /// buffer's access list decides, which is not `Granted`, and all is as it was. It takes no memory.
    pub fn unmodify_as(
        &mut self,
        directory: &Directory,
        user: &Name,
        name: &Name,
    ) -> Result<(), Decision>
        requires { HasBuffer name.now self.old }
        ensures answer { let b = (marked_at name.now self.old).buffer in PermitAnswers result (decision directory.now b.owners user.now b.entries 3) }
        ensures ok { OnOk result (self.new ≡ change_first (marked_named name.now) marked_unmodified self.old) }
        ensures err { OnErr result (self.new ≡ self.old) }
    {
        self.update_as(directory, user, name, Update::Unmodify)
    }

    /// Another user owns the buffer, where WRITE_OWNER is granted to the user who acts. Else the answer is what the buffer's access
    /// list decides, which is not `Granted`, and all is as it was. It takes no memory. That the owner is a user of the directory is
    /// for the caller to see.
    pub fn set_owner_as(
        &mut self,
        directory: &Directory,
        user: &Name,
        name: &Name,
        owner: Name,
    ) -> Result<(), Decision>
        requires { HasBuffer name.now self.old }
        ensures answer { let b = (marked_at name.now self.old).buffer in PermitAnswers result (decision directory.now b.owners user.now b.entries 524288) }
        ensures ok { OnOk result (self.new ≡ change_first (marked_named name.now) (marked_owners_set (ToUser owner)) self.old) }
        ensures err { OnErr result (self.new ≡ self.old) }
    {
        self.update_as(directory, user, name, Update::SetOwners(owner))
    }

    /// Another group owns the buffer, or none does, where WRITE_OWNER is granted to the user who acts. Else the answer is what the
    /// buffer's access list decides, which is not `Granted`, and all is as it was. It takes no memory. That it is a group of the
    /// directory is for the caller to see.
    pub fn set_group_as(
        &mut self,
        directory: &Directory,
        user: &Name,
        name: &Name,
        group: Option<Name>,
    ) -> Result<(), Decision>
        requires { HasBuffer name.now self.old }
        ensures answer { let b = (marked_at name.now self.old).buffer in PermitAnswers result (decision directory.now b.owners user.now b.entries 524288) }
        ensures ok { OnOk result (self.new ≡ change_first (marked_named name.now) (marked_owners_set (ToGroup group)) self.old) }
        ensures err { OnErr result (self.new ≡ self.old) }
    {
        self.update_as(directory, user, name, Update::Regroup(group))
    }

    /// Another access list takes the place of the buffer's, where WRITE_ACL is granted to the user who acts. Else the answer is
    /// what the buffer's access list decides, which is not `Granted`, and all is as it was. It takes no memory.
    pub fn set_list_as(
        &mut self,
        directory: &Directory,
        user: &Name,
        name: &Name,
        list: mgs_acl::List,
    ) -> Result<(), Decision>
        requires { HasBuffer name.now self.old }
        ensures answer { let b = (marked_at name.now self.old).buffer in PermitAnswers result (decision directory.now b.owners user.now b.entries 262144) }
        ensures ok { OnOk result (self.new ≡ change_first (marked_named name.now) (marked_list_set list) self.old) }
        ensures err { OnErr result (self.new ≡ self.old) }
    {
        self.update_as(directory, user, name, Update::SetList(list))
    }

    // Takes the buffer of a name out.
    fn kill(&mut self, name: &Name)
        ensures value { self.new ≡ without_marked name.now self.old }
        ensures gone { has_buffer name.now self.new ≡ false }
    {
        take_out(&mut self.all, name);
    }

    /// Takes the buffer of a name out, with its marks, where DELETE is granted to the user. Else the answer is what the buffer's
    /// access list decides, which is not `Granted`, and all is as it was. It takes no memory. The others keep their order and their
    /// marks.
    pub fn kill_as(
        &mut self,
        directory: &Directory,
        user: &Name,
        name: &Name,
    ) -> Result<(), Decision>
        requires { HasBuffer name.now self.old }
        ensures answer { let b = (marked_at name.now self.old).buffer in PermitAnswers result (decision directory.now b.owners user.now b.entries 65536) }
        ensures ok { OnOk result (self.new ≡ without_marked name.now self.old) }
        ensures gone { OnOk result (has_buffer name.now self.new ≡ false) }
        ensures err { OnErr result (self.new ≡ self.old) }
    {
        self.permit(directory, user, name, Mask::of(Right::Delete))?;
        self.kill(name);
        Ok(())
    }
}
