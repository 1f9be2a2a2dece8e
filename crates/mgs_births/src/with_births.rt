// A store with the register of births and the tape of deeds beside it.
use crate::births::Births;
use crate::tape::Tape;

/// Where buffers are saved, and beside it the births of buffers and the deeds of acts. The store itself is told nothing of these.
#[derive(Drop)]
pub struct WithBirths<S: Drop> {
    /// Where buffers are saved.
    pub store: S,
    /// The births of buffers.
    pub births: Births,
    /// The deeds of acts.
    pub tape: Tape,
}
