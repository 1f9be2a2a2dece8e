// The users and groups of a server.
ghost use Rattle.std.specs.Prelude.{◌≡◌, [], OnOk, OnErr, find, map};
ghost use Rattle.mgs_model.specs.Access.{is_among, is_group_named, is_member};
ghost use Rattle.mgs_model.specs.Names.{same_name};

use crate::group::{Group, group_typed, has_group, is_member};
use crate::users::{are_users, has_name, known, named, typed_name};
use mgs_acl::user_named;
use mgs_model::{GROUP_LIMIT, Name, USER_LIMIT};
use std::alloc::Global;
use std::marker::Model;
use thiserror::Error;

/// Why a directory was not changed, in the order in which the faults are checked.
#[derive(Clone, Copy, Debug, PartialEq, Eq, Error)]
pub enum DirectoryFault {
    /// The name is not that of a user or a group: 1 to 32 lower-case letters, digits, `-` and `_`.
    #[error("the name is not that of a user or a group")]
    Name,
    /// The directory has a user, or a group, of this name.
    #[error("the name is taken")]
    Twice,
    /// A member of the group is not a user of the directory.
    #[error("a member is not a user")]
    Unknown,
    /// The directory has `USER_LIMIT` users (256), or `GROUP_LIMIT` groups (64).
    #[error("the directory is full")]
    Full,
    /// Out of memory.
    #[error("no memory")]
    Short,
}

/// The users and groups of a server, in the order in which they were added.
#[derive(Drop)]
pub struct Directory {
    users: Vec<Name>,
    groups: Vec<Group>,
    alloc: Global,
}

impl Model for Directory {
    ghost use Rattle.mgs_model.specs.Access.{Directory as Seen};

    ghost Value = { Seen };

    ghost view = { λ d. record { users = d.users.items; groups = d.groups.items } };
}

impl Directory {
    ghost use Rattle.mgs_policy.specs.Directories.{user_fault, with_user, group_fault, with_group, DirectoryAnswers};

    /// A directory with no user and no group.
    pub fn new(alloc: Global) -> Directory
        ensures { result ≡ record { users = []; groups = [] } }
    {
        Directory {
            users: Vec::new(alloc),
            groups: Vec::new(alloc),
            alloc,
        }
    }

    /// Whether a user has this name.
    pub fn has_user(&self, name: &Name) -> bool
        ensures { result ≡ is_among name.now self.now.users }
    {
        has_name(self.users.as_slice(), name)
    }

    /// The user of this name, if there is one.
    pub fn user(&self, name: &str) -> Option<Name>
        ensures { result ≡ find (same_name name.now) self.now.users }
    {
        named(self.users.as_slice(), name)
    }

    /// The user whose name is typed so, if there is one.
    pub fn user_typed(&self, typed: &[char]) -> Option<Name>
        ensures { result ≡ find (same_name typed.now) self.now.users }
    {
        typed_name(self.users.as_slice(), typed)
    }

    /// Whether a group has this name.
    pub fn has_group(&self, name: &Name) -> bool
        ensures { result ≡ is_group_named name.now self.now.groups }
    {
        has_group(self.groups.as_slice(), name)
    }

    /// The group whose name is typed so, if there is one: its name.
    pub fn group_typed(&self, typed: &[char]) -> Option<Name>
        ensures { result ≡ find (same_name typed.now) (map (λ g. g.name) self.now.groups) }
    {
        group_typed(self.groups.as_slice(), typed)
    }

    /// Whether a user is a member of a group.
    pub fn is_member(&self, group: &Name, user: &Name) -> bool
        ensures { result ≡ is_member self.now.groups group.now user.now }
    {
        is_member(self.groups.as_slice(), group, user)
    }

    /// Adds a user, who is then the last.
    ///
    /// The faults, checked in this order: `Name` where it is not a user's name, `Twice` where a user has it, `Full` where there are
    /// `USER_LIMIT` users, `Short` for out of memory. They change nothing.
    pub fn add_user(&mut self, name: &str) -> Result<(), DirectoryFault>
        ensures answer { DirectoryAnswers result (user_fault self.old name.now) }
        ensures ok { OnOk result (self.new ≡ with_user self.old name.now) }
        ensures err { OnErr result (self.new ≡ self.old) }
    {
        let Some(name) = user_named(name) else {
            return Err(DirectoryFault::Name);
        };
        if self.has_user(&name) {
            return Err(DirectoryFault::Twice);
        }
        if self.users.len() >= USER_LIMIT {
            return Err(DirectoryFault::Full);
        }
        match self.users.push(name) {
            Ok(()) => Ok(()),
            Err(_) => Err(DirectoryFault::Short),
        }
    }

    /// Adds a group of these users, which is then the last. A member may be named twice.
    ///
    /// The faults, checked in this order: `Name` where it is not a group's name, `Twice` where a group has it, `Unknown` where a member
    /// is not a user of the directory, `Full` where there are `GROUP_LIMIT` groups, `Short` for out of memory. They change nothing.
    pub fn add_group(&mut self, name: &str, members: &[&str]) -> Result<(), DirectoryFault>
        ensures answer { DirectoryAnswers result (group_fault self.old name.now (map (λ member. member.now) members.now)) }
        ensures ok { OnOk result (self.new ≡ with_group self.old name.now (map (λ member. member.now) members.now)) }
        ensures err { OnErr result (self.new ≡ self.old) }
    {
        let Some(group) = user_named(name) else {
            return Err(DirectoryFault::Name);
        };
        if self.has_group(&group) {
            return Err(DirectoryFault::Twice);
        }
        if !are_users(self.users.as_slice(), members) {
            return Err(DirectoryFault::Unknown);
        }
        if self.groups.len() >= GROUP_LIMIT {
            return Err(DirectoryFault::Full);
        }
        let Ok(members) = known(self.alloc, self.users.as_slice(), members) else {
            return Err(DirectoryFault::Short);
        };
        let Ok(()) = self.groups.push(Group::new(group, members)) else {
            return Err(DirectoryFault::Short);
        };
        Ok(())
    }
}
