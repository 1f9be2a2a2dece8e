// What an access list decides (RFC 8881, section 6.2.1).
ghost use Rattle.std.specs.Prelude.{◌≡◌, ◌∷◌, [], find, filter, not};
ghost use Rattle.mgs_model.specs.Rights.{has_right, all_rights};
ghost use Rattle.std.specs.Option.{option_copied};
ghost use Rattle.mgs_model.specs.Access.{allows, matches, owners_of, decider, decision, decision_by};
ghost use Rattle.mgs_policy.specs.Walk.{wanted};

use crate::directory::Directory;
use mgs_acl::List;
use mgs_model::{Decision, EntryType, Mask, Name, Owners, Right, Who};

/// Whether an entry for `who` matches the user: by name, by a group of the directory that the user is in, as the owner, as a member of
/// the owning group, or always.
fn matches(
    directory: &Directory,
    owner: &Name,
    group: Option<&Name>,
    user: &Name,
    who: &Who,
) -> bool
    ensures { result ≡ matches directory.now (owners_of owner.now (option_copied group.entry)) user.now who.now }
{
    match who {
        Who::Owner => *owner == *user,
        Who::OwningGroup => match group {
            Some(group) => directory.is_member(group, user),
            None => false,
        },
        Who::Everyone => true,
        Who::User(name) => *name == *user,
        Who::Group(name) => directory.is_member(name, user),
    }
}

/// The first right of a mask.
fn first_right(mask: Mask) -> Option<Right>
    ensures { result ≡ find (has_right mask) all_rights }
{
    if mask.bits() == 0 {
        return None;
    }
    Right::ALL.iter().copied().find(|right| mask.has(*right))
}

/// The first right that both masks have.
fn first_common(mask: Mask, other: Mask) -> Option<Right>
    ensures { result ≡ find (has_right other) (wanted mask) }
{
    first_right(Mask::from_bits(mask.bits() & other.bits()))
}

/// The rights of a mask that the other has not.
fn without(mask: Mask, other: Mask) -> Mask
    ensures { wanted result ≡ filter (λ right. not (has_right other right)) (wanted mask) }
{
    Mask::from_bits(mask.bits() & !other.bits())
}

/// What a list decides on all rights of a mask, in one walk over the list. It takes no memory.
///
/// `DeniedBy` names the least entry that denies one of them, counted from 1, and the lowest right that it denies. Where none denies,
/// `NotGranted` names the lowest right that no entry grants. A mask of no right is `Granted`. The list, the owner and the owning group,
/// or none, are those of one buffer.
#[tactic(auto, using(crate::proofs::Walks::walk))]
pub fn decide(
    list: &List,
    owner: &Name,
    group: Option<&Name>,
    user: &Name,
    directory: &Directory,
    mask: Mask,
) -> Decision
    ensures { result ≡ decision directory.now (owners_of owner.now (option_copied group.entry)) user.now list.now mask }
{
    // The rights of the mask that no entry so far has decided.
    let mut left = mask;
    for (place, entry) in list.as_slice().iter().enumerate() {
        // Nothing is left to decide.
        if left.bits() == 0 {
            break;
        }
        let Some(right) = first_common(left, entry.mask) else {
            continue;
        };
        if !matches(directory, owner, group, user, &entry.who) {
            continue;
        }
        match entry.entry_type {
            EntryType::Allow => left = without(left, entry.mask),
            EntryType::Deny => {
                return Decision::DeniedBy {
                    entry: place + 1,
                    bit: right,
                };
            }
        }
    }
    match first_right(left) {
        Some(right) => Decision::NotGranted { bit: right },
        None => Decision::Granted,
    }
}

/// What a list decides on one right of a user: what the first entry does that matches the user and has the right. Entries are counted
/// from 1. It takes no memory.
pub fn decide_right(
    list: &List,
    owners: &Owners,
    user: &Name,
    directory: &Directory,
    right: Right,
) -> Decision
    ensures { result ≡ decision_by (decider directory.now owners.now user.now list.now) (right ∷ []) }
{
    let group = owners.group.as_ref();
    decide(list, &owners.owner, group, user, directory, Mask::of(right))
}

/// Whether a list grants one right to a user. It takes no memory.
pub fn is_granted(
    list: &List,
    owners: &Owners,
    user: &Name,
    directory: &Directory,
    right: Right,
) -> bool
    ensures { result ≡ allows (decider directory.now owners.now user.now list.now right) }
{
    decide_right(list, owners, user, directory, right) == Decision::Granted
}
