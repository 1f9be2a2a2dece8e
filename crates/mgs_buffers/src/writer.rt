// Who writes, and where.
use mgs_model::Name;
use mgs_policy::Directory;

/// Who writes in a buffer, and by which directory that was decided.
#[derive(Clone, Copy)]
pub struct Writer<'a> {
    /// The users and groups.
    pub directory: &'a Directory,
    /// Who writes.
    pub user: &'a Name,
    /// The name of the buffer.
    pub name: &'a Name,
    /// Its place among all buffers, from 0.
    pub at: usize,
}
