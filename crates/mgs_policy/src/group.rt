// A group of users, and lists of groups.
ghost use Rattle.std.specs.Prelude.{◌≡◌, find, map};
ghost use Rattle.std.specs.Option.{option_map};
ghost use Rattle.mgs_model.specs.Access.{is_group_named, is_member};
ghost use Rattle.mgs_model.specs.Names.{same_name};

use crate::users::has_name;
use mgs_model::{Name, is_typed};
use std::marker::Model;

/// A group: its name, and its members in the order in which they were named.
#[derive(Drop)]
pub(crate) struct Group {
    name: Name,
    members: Vec<Name>,
}

impl Model for Group {
    ghost use Rattle.mgs_model.specs.Access.{UserGroup};

    ghost Value = { UserGroup };

    ghost view = { λ g. record { name = g.name; members = g.members.items } };
}

impl Group {
    ghost use Rattle.mgs_policy.specs.Groups.{has_member};

    /// The group of this name with these members.
    pub(crate) fn new(name: Name, members: Vec<Name>) -> Group
        ensures { result ≡ record { name = name; members = members.items } }
    {
        Group { name, members }
    }

    fn is_named(&self, name: &Name) -> bool
        ensures { result ≡ same_name name.now self.now.name }
    {
        *name == self.name
    }

    fn is_typed(&self, typed: &[char]) -> bool
        ensures { result ≡ same_name typed.now self.now.name }
    {
        is_typed(typed, self.name.as_bytes())
    }

    fn has(&self, group: &Name, user: &Name) -> bool
        ensures { result ≡ has_member group.now user.now self.now }
    {
        *group == self.name && has_name(self.members.as_slice(), user)
    }
}

/// Whether one of the groups has this name.
pub(crate) fn has_group(groups: &[Group], name: &Name) -> bool
    ensures { result ≡ is_group_named name.now groups.now }
{
    groups.iter().any(|group| group.is_named(name))
}

/// The first of the groups whose name is typed so, if there is one.
fn group_of<'a>(groups: &'a [Group], typed: &[char]) -> Option<&'a Group>
    ensures { option_map (λ g. g.now) result ≡ find (λ g. same_name typed.now g.name) groups.now }
{
    groups.iter().find(|group| group.is_typed(typed))
}

/// Its name.
#[tactic(auto, using(crate::proofs::UserLemmas::group_name))]
pub(crate) fn group_typed(groups: &[Group], typed: &[char]) -> Option<Name>
    ensures { result ≡ find (same_name typed.now) (map (λ g. g.name) groups.now) }
{
    match group_of(groups, typed) {
        Some(group) => Some(group.name),
        None => None,
    }
}

/// Whether the user is in a group of this name.
pub(crate) fn is_member(groups: &[Group], group: &Name, user: &Name) -> bool
    ensures { result ≡ is_member groups.now group.now user.now }
{
    groups.iter().any(|other| other.has(group, user))
}
