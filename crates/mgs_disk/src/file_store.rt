// The store of files.
ghost use Rattle.std.specs.Prelude.{◌≤◌, string_capacity};

use crate::save_places::Place;

/// The files of buffers, on a disk.
#[derive(Drop)]
pub struct FileStore<D> {
    pub(crate) disk: D,
    pub(crate) places: Vec<Place>,
    pub(crate) room: String,
    pub(crate) faults: u64,
    ghost wide: { 4 ≤ string_capacity room },
}
