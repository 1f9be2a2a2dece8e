// How a text comes in the place of a file, a step a call.
ghost use Rattle.std.specs.Prelude.{◌≡◌, ◌≤◌, [], ◌∷◌, OnOk, OnErr, string_capacity};
ghost use Rattle.std.specs.Path.{path_bytes, path_parent};
ghost use Rattle.std.specs.Str.{encode_utf8_all};
ghost use Rattle.mgs_written.specs.Steps.{told, filled, placed, folder_synced, saved, failed_after, IsPart, IsUnsaved};

use crate::text_writer::encoded_len;
use std::io;
use std::path::Path;

/// Where new files come in the place of others, one at a time: `create` begins one, and the calls after it are about that one. A step
/// that fails is not told, and is counted.
pub trait Replaces {
    ghost use Rattle.std.specs.Prelude.{◌≡◌, ◌≤◌, ℕ, [], ◌∷◌, OnOk, OnErr, Option, List, string_capacity};
    ghost use Rattle.std.specs.Path.{path_bytes};
    ghost use Rattle.std.specs.Str.{encode_utf8_all};
    ghost use Rattle.mgs_written.specs.Steps.{Step, told, failed_after, Created, Wrote, Grouped, Moded, Owned, Synced, Renamed, FolderSynced, Discarded};

    // The steps that were done, in their order, where they are told.
    ghost done: { Self → Option (List Step) };

    // How many steps failed, up to the last `u64`.
    ghost failed: { Self → ℕ };

    /// Makes an empty file beside the one at a path, for so many bytes, which nobody else can open. It is an error where the path leads
    /// to something that may not be replaced.
    fn create(&mut self, path: Path<'_>, len: usize) -> io::Result<()>
        ensures ok { OnOk result (done self.new ≡ told (Created (path_bytes path.entry) len ∷ []) (done self.old)) }
        ensures err { OnErr result (done self.new ≡ done self.old) }
        ensures counted { failed self.new ≡ failed_after result (failed self.old) };

    /// Writes a text as UTF-8, gathered in the room that is lent.
    fn write(&mut self, room: &mut String, text: &[char]) -> io::Result<()>
        requires { 4 ≤ string_capacity room.old }
        ensures room { string_capacity room.old ≤ string_capacity room.new }
        ensures ok { OnOk result (done self.new ≡ told (Wrote (encode_utf8_all text.now) ∷ []) (done self.old)) }
        ensures err { OnErr result (done self.new ≡ done self.old) }
        ensures counted { failed self.new ≡ failed_after result (failed self.old) };

    /// Gives it the other's group, as far as this process may.
    fn give_group(&mut self)
        ensures done { done self.new ≡ told (Grouped ∷ []) (done self.old) }
        ensures same { failed self.new ≡ failed self.old };

    /// Gives it the other's mode.
    fn give_mode(&mut self) -> io::Result<()>
        ensures ok { OnOk result (done self.new ≡ told (Moded ∷ []) (done self.old)) }
        ensures err { OnErr result (done self.new ≡ done self.old) }
        ensures counted { failed self.new ≡ failed_after result (failed self.old) };

    /// Gives it the other's owner, as far as this process may.
    fn give_owner(&mut self)
        ensures done { done self.new ≡ told (Owned ∷ []) (done self.old) }
        ensures same { failed self.new ≡ failed self.old };

    /// Waits until the disk has it.
    fn sync(&mut self) -> io::Result<()>
        ensures ok { OnOk result (done self.new ≡ told (Synced ∷ []) (done self.old)) }
        ensures err { OnErr result (done self.new ≡ done self.old) }
        ensures counted { failed self.new ≡ failed_after result (failed self.old) };

    /// Puts it in the place of the file at a path.
    fn rename(&mut self, path: Path<'_>) -> io::Result<()>
        ensures ok { OnOk result (done self.new ≡ told (Renamed (path_bytes path.entry) ∷ []) (done self.old)) }
        ensures err { OnErr result (done self.new ≡ done self.old) }
        ensures counted { failed self.new ≡ failed_after result (failed self.old) };

    /// Waits until the disk has the names of a folder, where it can.
    fn sync_folder(&mut self, folder: Path<'_>)
        ensures done { done self.new ≡ told (FolderSynced (path_bytes folder.entry) ∷ []) (done self.old) }
        ensures same { failed self.new ≡ failed self.old };

    /// Removes it.
    fn discard(&mut self)
        ensures done { done self.new ≡ told (Discarded ∷ []) (done self.old) }
        ensures same { failed self.new ≡ failed self.old };
}

// Nobody else can open the file before it has its mode: so the group comes first, and the owner, who may be another, last.
#[tactic(auto, using(crate::proofs::Telling::told_five, crate::proofs::Telling::part_none, crate::proofs::Telling::part_two, crate::proofs::Telling::part_four))]
fn fill<D: Replaces>(disk: &mut D, room: &mut String, text: &[char]) -> io::Result<()>
    requires { 4 ≤ string_capacity room.old }
    ensures room { string_capacity room.old ≤ string_capacity room.new }
    ensures ok { OnOk result (D.done disk.new ≡ told (filled (encode_utf8_all text.now)) (D.done disk.old)) }
    ensures err { OnErr result (IsPart (filled (encode_utf8_all text.now)) (D.done disk.old) (D.done disk.new)) }
    ensures counted { D.failed disk.new ≡ failed_after result (D.failed disk.old) }
{
    disk.write(room, text)?;
    disk.give_group();
    disk.give_mode()?;
    disk.give_owner();
    disk.sync()
}

#[tactic(auto, using(crate::proofs::Telling::told_more, crate::proofs::Telling::part_placed, crate::proofs::Telling::part_filled))]
fn fill_and_rename<D: Replaces>(
    disk: &mut D,
    path: Path<'_>,
    room: &mut String,
    text: &[char],
) -> io::Result<()>
    requires { 4 ≤ string_capacity room.old }
    ensures room { string_capacity room.old ≤ string_capacity room.new }
    ensures ok { OnOk result (D.done disk.new ≡ told (placed (path_bytes path.entry) (encode_utf8_all text.now)) (D.done disk.old)) }
    ensures err { OnErr result (IsPart (placed (path_bytes path.entry) (encode_utf8_all text.now)) (D.done disk.old) (D.done disk.new)) }
    ensures counted { D.failed disk.new ≡ failed_after result (D.failed disk.old) }
{
    fill(disk, room, text)?;
    disk.rename(path)
}

// The disk is to have the names of the folder of a path.
#[tactic(auto, using(crate::proofs::Telling::folder_told, crate::proofs::Telling::folder_none))]
fn sync_folder_of<D: Replaces>(disk: &mut D, path: Path<'_>)
    ensures done { D.done disk.new ≡ told (folder_synced (path_parent (path_bytes path.entry))) (D.done disk.old) }
    ensures same { D.failed disk.new ≡ D.failed disk.old }
{
    if let Some(folder) = path.parent() {
        disk.sync_folder(folder);
    }
}

/// Puts a text in the place of the file at a path. It fails exactly if one of its steps fails: then what stood there stands there still,
/// and the new file is removed.
#[tactic(auto, using(crate::proofs::Telling::saved_so, crate::proofs::Telling::unsaved_none, crate::proofs::Telling::unsaved_part))]
pub fn replace<D: Replaces>(
    disk: &mut D,
    path: Path<'_>,
    room: &mut String,
    text: &[char],
) -> io::Result<()>
    requires { 4 ≤ string_capacity room.old }
    ensures room { string_capacity room.old ≤ string_capacity room.new }
    ensures ok { OnOk result (D.done disk.new ≡ told (saved (path_bytes path.entry) (encode_utf8_all text.now)) (D.done disk.old)) }
    ensures err { OnErr result (IsUnsaved (path_bytes path.entry) (encode_utf8_all text.now) (D.done disk.old) (D.done disk.new)) }
    ensures counted { D.failed disk.new ≡ failed_after result (D.failed disk.old) }
{
    disk.create(path, encoded_len(text))?;
    match fill_and_rename(disk, path, room, text) {
        Ok(()) => {
            sync_folder_of(disk, path);
            Ok(())
        }
        Err(error) => {
            disk.discard();
            Err(error)
        }
    }
}
