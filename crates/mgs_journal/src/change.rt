// A change of what a journal keeps of rights.
use mgs_buffers::Rights;

/// One change of the rows that a journal keeps, a row for each buffer in the order of creation.
#[derive(Drop)]
pub enum Change<'a> {
    /// Adds a buffer as the last: its rights, and its birth number.
    Add(Rights<'a>, u64),
    /// Gives the `i`-th buffer these rights. Its birth number stays.
    Set(usize, Rights<'a>),
    /// Removes the `i`-th buffer, which was killed, with its text.
    Remove(usize),
}

impl<'a> Default for Change<'a> {
    fn default() -> Change<'a> {
        Change::Remove(0)
    }
}
