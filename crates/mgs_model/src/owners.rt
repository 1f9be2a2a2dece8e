// Who owns a buffer.
use crate::name::Name;

/// Who owns a buffer: a user, and a group or none (RFC 8881, section 6.2.1.5). The group need not be in the directory: it has no members
/// then.
#[derive(Clone, Copy)]
pub struct Owners {
    /// The user whom `OWNER@` matches.
    pub owner: Name,
    /// The group whose members `GROUP@` matches.
    pub group: Option<Name>,
}

/// Another owner of a buffer, or another owning group, or none.
#[derive(Clone, Copy)]
pub enum NewOwner {
    /// The user who is the owner from then on.
    ToUser(Name),
    /// The group that is the owning group from then on.
    ToGroup(Option<Name>),
}
