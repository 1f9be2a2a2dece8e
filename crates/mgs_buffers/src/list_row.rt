// What a user is told of a buffer in the listing of all.
ghost use Rattle.std.specs.Prelude.{◌≡◌};
ghost use Rattle.std.specs.Option.{option_map};
ghost use Rattle.mgs_model.specs.World.{may};
ghost use Rattle.mgs_buffers.specs.Contents.{marked_of};
ghost use Rattle.mgs_buffers.specs.Judging.{StaysRight};
ghost use Rattle.mgs_cache.specs.Kept.{AreRight};
ghost use Rattle.mgs_buffers.specs.Told.{attributes_read, attributes_to};

use crate::buffer::Buffer;
use mgs_cache::Judge;
use mgs_marks::Marked;
use mgs_model::{Name, Owners, Right};
use mgs_policy::{Directory, is_granted};
use mgs_text::Text;

/// What is told of a buffer to those to whom READ_ATTRIBUTES is granted.
#[derive(Clone, Copy)]
pub struct Attributes {
    /// Its name, which no other buffer has.
    pub name: Name,
    /// Whether the buffer was edited since it was made or last written to its file.
    pub modified: bool,
    /// The number of characters of its text.
    pub size: usize,
    /// Its owner, and its owning group where it has one.
    pub owners: Owners,
}

// Whether a user is granted READ_ATTRIBUTES.
pub(crate) fn is_shown<T: Marked + Drop>(
    name: &Name,
    buffer: &Buffer<T>,
    directory: &Directory,
    user: &Name,
) -> bool
    ensures { result ≡ may directory.now user.now Right.ReadAttributes (marked_of T.text T.marks name.now buffer.now).buffer }
{
    is_granted(
        &buffer.list,
        &buffer.owners,
        user,
        directory,
        Right::ReadAttributes,
    )
}

// Whether a judge grants READ_ATTRIBUTES to a user on the buffer at a place.
fn is_shown_by<T: Marked + Drop>(
    name: &Name,
    buffer: &Buffer<T>,
    judge: &mut Judge,
    place: usize,
    directory: &Directory,
    user: &Name,
) -> bool
    requires { AreRight place directory.now buffer.now.owners buffer.now.list judge.old }
    ensures value { result ≡ may directory.now user.now Right.ReadAttributes (marked_of T.text T.marks name.now buffer.now).buffer }
    ensures stays { StaysRight place directory.now buffer.now.owners buffer.now.list judge.old judge.new }
{
    buffer.grants_by(judge, place, directory, user, Right::ReadAttributes)
}

// What a user is told of the buffer at a place, by a judge.
pub(crate) fn told<T: Marked + Drop>(
    name: &Name,
    buffer: &Buffer<T>,
    judge: &mut Judge,
    place: usize,
    directory: &Directory,
    user: &Name,
) -> Option<Attributes>
    requires { AreRight place directory.now buffer.now.owners buffer.now.list judge.old }
    ensures value { option_map attributes_read result ≡ attributes_to directory.now user.now (marked_of T.text T.marks name.now buffer.now).buffer }
    ensures stays { StaysRight place directory.now buffer.now.owners buffer.now.list judge.old judge.new }
{
    if is_shown_by(name, buffer, judge, place, directory, user) {
        Some(Attributes {
            name: *name,
            modified: buffer.modified,
            size: buffer.text.text().len(),
            owners: buffer.owners,
        })
    } else {
        None
    }
}
