// Who acts.
use mgs_model::Name;
use mgs_policy::Directory;

/// Who acts, and the directory by which it is decided what he may do.
#[derive(Clone, Copy)]
pub(crate) struct Actor<'a> {
    /// The users, and the groups that they are in.
    pub(crate) directory: &'a Directory,
    /// The user who acts.
    pub(crate) user: &'a Name,
}
