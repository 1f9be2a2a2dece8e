// One deed of an act.
use mgs_acl::List;
use mgs_model::{Decision, Name, NewOwner};

/// What an act did to rights or buffers, what it saved, or which right was denied.
#[derive(Drop)]
pub enum Deed {
    /// The access list of the buffer of a name became this one.
    ListSet(Name, List),
    /// The buffer of a name got this owner, or this owning group, or none.
    OwnersSet(Name, NewOwner),
    /// A buffer of a name was made for an owner.
    Created(Name, Name),
    /// The buffer of a name was killed.
    Killed(Name),
    /// The text of the buffer of a name was saved.
    Saved(Name),
    /// This was decided at the buffer of a name, and denied the act.
    Denied(Name, Decision),
}
