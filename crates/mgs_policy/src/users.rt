// Lists of names.
ghost use Rattle.std.specs.Prelude.{◌≡◌, [], ◌∷◌, ◌++◌, OnOk, IfOk, find, map, true};
ghost use Rattle.mgs_model.specs.Access.{is_among};
ghost use Rattle.mgs_model.specs.Names.{same_name};
ghost use Rattle.mgs_policy.specs.Groups.{are_users};

use mgs_model::{Name, is_typed};
use std::alloc::{AllocError, Global};

/// Whether this name is among the names.
pub(crate) fn has_name(names: &[Name], name: &Name) -> bool
    ensures { result ≡ is_among name.now names.now }
{
    names.iter().any(|other| *name == *other)
}

/// The first of the names that is this text, if there is one.
pub(crate) fn named(names: &[Name], name: &str) -> Option<Name>
    ensures { result ≡ find (same_name name.now) names.now }
{
    names
        .iter()
        .copied()
        .find(|other| name.as_bytes() == other.as_bytes())
}

/// The first of the names that is typed so, if there is one.
pub(crate) fn typed_name(names: &[Name], typed: &[char]) -> Option<Name>
    ensures { result ≡ find (same_name typed.now) names.now }
{
    names
        .iter()
        .copied()
        .find(|other| is_typed(typed, other.as_bytes()))
}

/// Whether this text is the name of one of the users.
fn is_user(users: &[Name], name: &str) -> bool
    ensures { result ≡ is_among name.now users.now }
{
    users.iter().any(|user| name.as_bytes() == user.as_bytes())
}

/// Whether all of these are users.
pub(crate) fn are_users(users: &[Name], members: &[&str]) -> bool
    ensures { result ≡ are_users users.now (map (λ member. member.now) members.now) }
{
    for member in members {
        if !is_user(users, member) {
            return false;
        }
    }
    true
}

/// Puts the name of a user last. `AllocError`: out of memory.
fn push_user(names: &mut Vec<Name>, users: &[Name], user: &str) -> Result<(), AllocError>
    requires { is_among user.now users.now ≡ true }
    ensures { OnOk result (names.new.items ≡ names.old.items ++ user.now ∷ []) }
{
    match named(users, user) {
        Some(name) => {
            names.push(name)?;
            Ok(())
        }
        None => unreachable!(),
    }
}

/// The names of these members, in their order. The caller has made sure that all of them are users. `AllocError`: out of memory.
pub(crate) fn known(
    alloc: Global,
    users: &[Name],
    members: &[&str],
) -> Result<Vec<Name>, AllocError>
    requires { are_users users.now (map (λ member. member.now) members.now) ≡ true }
    ensures { IfOk result (λ names. names.items ≡ map (λ member. member.now) members.now) }
{
    let mut names = Vec::new(alloc);
    for member in members {
        push_user(&mut names, users, member)?;
    }
    Ok(names)
}
