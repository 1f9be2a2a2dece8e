// Where the buffers of a served configuration are saved: each in its own file.
ghost use Rattle.std.specs.Prelude.{◌≡◌, ◌≤◌, IfOk, OnOk, OnErr, string_capacity};
ghost use Rattle.std.specs.Str.{encode_utf8_all};
ghost use Rattle.mgs_config.specs.World.{paths_of};
ghost use Rattle.mgs_store.specs.Stores.{IsCounted};
ghost use Rattle.mgs_disk.specs.Places.{AreFound, IsKeptAt, IsSavedAt, failed_at, saved_at};
ghost use Rattle.mgs_disk.specs.Saving.{places_in, rows_in, steps_of, failures_of, file_of};

use crate::file_store::FileStore;
use crate::save_places::{Finds, Place, path_of, places_of};
use mgs_config::BufferFile;
use mgs_store::{Store, StoreFault};
use mgs_written::{Replaces, replace};
use std::alloc::{AllocError, Global};

// How many bytes are gathered before they are written.
const ROOM: usize = 8192;

// Saves the text of the buffer of this name in its file.
fn save_in_file<D: Replaces>(
    disk: &mut D,
    places: &[Place],
    room: &mut String,
    name: &str,
    text: &[char],
) -> Result<(), StoreFault>
    requires { 4 ≤ string_capacity room.old }
    ensures room { string_capacity room.old ≤ string_capacity room.new }
    ensures ok { OnOk result (IsSavedAt (saved_at name.now places.now) (encode_utf8_all text.now) (D.done disk.old) (D.done disk.new)) }
    ensures err { OnErr result (IsKeptAt (saved_at name.now places.now) (encode_utf8_all text.now) (D.done disk.old) (D.done disk.new)) }
    ensures failed { D.failed disk.new ≡ failed_at (saved_at name.now places.now) result (D.failed disk.old) }
{
    let Some(path) = path_of(places, name) else {
        return Err(StoreFault);
    };
    match replace(disk, path, room, text) {
        Ok(()) => Ok(()),
        Err(_) => Err(StoreFault),
    }
}

impl<D: Finds + Replaces + Drop> FileStore<D> {
    /// A store that saved nothing yet: each buffer has its file. Each path is followed to its file now: where a link leads to another one
    /// later, nothing is saved through it. A file that is not there now is never saved.
    pub fn new(alloc: Global, disk: D, files: Vec<BufferFile>) -> Result<FileStore<D>, AllocError>
        ensures failed { IfOk result (λ store. ⟦<FileStore<D> as Store>⟧.failed store ≡ 0) }
        ensures named { IfOk result (λ store. rows_in store ≡ paths_of files.items) }
        ensures found { IfOk result (λ store. AreFound (D.leads disk) (places_in store)) }
        ensures none { IfOk result (λ store. steps_of D.done store ≡ D.done disk) }
        ensures unfailed { IfOk result (λ store. failures_of D.failed store ≡ D.failed disk) }
    {
        let places = places_of(&disk, alloc, files)?;
        let room = String::with_capacity(alloc, ROOM)?;
        Ok(FileStore {
            disk,
            places,
            room,
            faults: 0,
        })
    }
}

impl<D: Finds + Replaces + Drop> Store for FileStore<D> {
    ghost use Rattle.std.specs.Prelude.{◌≡◌, [], None, OnOk, OnErr};
    ghost use Rattle.std.specs.Str.{encode_utf8_all};
    ghost use Rattle.mgs_store.specs.Stores.{IsCounted, saved_of, told_more};
    ghost use Rattle.mgs_disk.specs.Places.{IsKeptAt, IsSavedAt, failed_at};
    ghost use Rattle.mgs_disk.specs.Saving.{places_in, steps_of, failures_of, file_of};

    ghost failed = { λ store. store.faults };

    ghost accepted = { λ store. None };

    /// Saves the text of a buffer in its file. `StoreFault` exactly if it has none, or one step failed; then the old text stands there, no
    /// new file is left, and the fault is counted.
    fn save(&mut self, name: &str, text: &[char]) -> Result<(), StoreFault>
        ensures ok { OnOk result (None ≡ told_more (saved_of name.now text.now) None) }
        ensures err { OnErr result (None ≡ told_more [] None) }
        ensures counted { OnErr result (IsCounted self.old.faults self.new.faults) }
        ensures saved { OnOk result (IsSavedAt (file_of name.now self.old) (encode_utf8_all text.now) (steps_of D.done self.old) (steps_of D.done self.new)) }
        ensures kept { OnErr result (IsKeptAt (file_of name.now self.old) (encode_utf8_all text.now) (steps_of D.done self.old) (steps_of D.done self.new)) }
        ensures failed { failures_of D.failed self.new ≡ failed_at (file_of name.now self.old) result (failures_of D.failed self.old) }
        ensures same { places_in self.new ≡ places_in self.old }
    {
        let saved = save_in_file(&mut self.disk, &self.places, &mut self.room, name, text);
        if saved.is_err() {
            self.faults = self.faults.saturating_add(1);
        }
        saved
    }

    fn faults(&self) -> u64 {
        self.faults
    }
}
