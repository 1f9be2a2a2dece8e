// One buffer that was made.
use mgs_model::Name;

/// A buffer that was made since the server began: its name, and its number.
#[derive(Clone, Copy)]
pub struct Birth {
    /// The buffer's name.
    pub name: Name,
    /// Its number.
    pub number: u64,
}
