// The attributes of a file whose text is replaced: the new one keeps its mode, owner and group.
ghost use Rattle.std.specs.Prelude.{◌≡◌, ◌≢◌, ◌↔◌, IsTrue, bit_and};
ghost use Rattle.std.specs.Option.{option_map, unwrap_or};
ghost use Rattle.std.specs.Fs.{IsFile, file_type, metadata_mode};

use std::fs::{File, Metadata, OpenFile, Permissions};
use std::io;
use std::os::unix::fs::{MetadataExt, PermissionsExt, fchown};

// The bit that lets a file's owner write it.
const OWNER_WRITES: u32 = 0o200;

// The bits that say who may read, write and run a file.
const PERMISSIONS: u32 = 0o777;

/// The mode of a file that replaces none: its owner's alone.
pub(crate) const PRIVATE: u32 = 0o600;

/// An open file that can be given to a user or to a group.
pub trait Gives {
    /// Gives it to the user and the group of these numbers. None: that one stays.
    fn give_to(&self, user: Option<u32>, group: Option<u32>) -> io::Result<()>;
}

impl Gives for File {
    fn give_to(&self, user: Option<u32>, group: Option<u32>) -> io::Result<()> {
        fchown(self, user, group)
    }
}

/// Whether a file may be replaced: a regular one that its owner may write. A link, a folder, a pipe and a device are none.
pub(crate) fn may_be_replaced(old: &Metadata) -> bool
    ensures { IsTrue result ↔ (IsFile (file_type old.now)) × (bit_and (metadata_mode old.now) OWNER_WRITES ≢ 0) }
{
    old.is_file() && old.mode() & OWNER_WRITES != 0
}

// The mode of the file that comes in a file's place, if there was one.
fn mode_after(old: Option<&Metadata>) -> u32
    ensures { result ≡ unwrap_or (option_map (λ o. bit_and (metadata_mode o.now) PERMISSIONS) old.entry) PRIVATE }
{
    match old {
        Some(old) => old.mode() & PERMISSIONS,
        None => PRIVATE,
    }
}

/// Gives a new file the group of the one in whose place it comes, as far as this process may.
pub(crate) fn give_group<F: Gives>(new: Option<&F>, old: Option<&Metadata>) {
    if let (Some(new), Some(old)) = (new, old) {
        let _ = new.give_to(None, Some(old.gid()));
    }
}

/// Gives it its mode. Nobody else can open it before.
pub(crate) fn give_mode<F: OpenFile>(new: &F, old: Option<&Metadata>) -> io::Result<()> {
    new.set_permissions(Permissions::from_mode(mode_after(old)))
}

/// Gives it its owner, as far as this process may.
pub(crate) fn give_owner<F: Gives>(new: Option<&F>, old: Option<&Metadata>) {
    if let (Some(new), Some(old)) = (new, old) {
        let _ = new.give_to(Some(old.uid()), None);
    }
}
