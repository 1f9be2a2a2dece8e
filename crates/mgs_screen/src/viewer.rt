// Who looks at a screen.
use mgs_model::Name;
use mgs_policy::Directory;

/// Who looks, and the directory by which it is decided what is shown.
#[derive(Clone, Copy)]
pub struct Viewer<'a> {
    /// The users, and the groups that they are in.
    pub directory: &'a Directory,
    /// The user who looks.
    pub user: &'a Name,
}
