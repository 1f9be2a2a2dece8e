// The parts of rights that change one by one.
ghost use Rattle.std.specs.Prelude.{◌≡◌, option_map, IfOk};
ghost use Rattle.mgs_rewind.specs.RowChanges.{can_be, new_part, part_if_allowed, part_text, told_part, with_part};

use crate::list_change::list_told;
use crate::told_rights::ToldRights;
use crate::whole_part::whole_part;
use std::alloc::{AllocError, Global};

/// A part of rights of which an event tells a change.
#[derive(Clone, Copy)]
pub(crate) enum Part {
    /// The owner.
    Owner,
    /// The owning group.
    Group,
    /// The list.
    List,
}

// The text of a part.
fn part_text(part: Part, row: &ToldRights) -> &[u8]
    ensures { result.now ≡ part_text part row.now }
{
    match part {
        Part::Owner => row.owner(),
        Part::Group => row.group(),
        Part::List => row.list(),
    }
}

// Whether a part can be this text.
fn can_be(part: Part, text: &[u8]) -> bool
    ensures { result ≡ can_be part text.now }
{
    match part {
        Part::Owner => true,
        Part::Group => true,
        Part::List => !text.is_empty(),
    }
}

// What the detail of an event makes of a part, if it fits it.
fn told_part(
    alloc: Global,
    part: Part,
    text: &[u8],
    detail: &[u8],
) -> Result<Option<Vec<u8>>, AllocError>
    ensures { IfOk result (λ new. option_map (λ v. v.items) new ≡ told_part part text.now detail.now) }
{
    match part {
        Part::Owner => whole_part(alloc, text, detail),
        Part::Group => whole_part(alloc, text, detail),
        Part::List => list_told(alloc, text, detail),
    }
}

// The part, if it can be this text.
fn part_if_allowed(part: Part, text: Option<Vec<u8>>) -> Option<Vec<u8>>
    ensures { option_map (λ v. v.items) result ≡ part_if_allowed part (option_map (λ v. v.items) text) }
{
    match text {
        Some(text) => {
            if can_be(part, text.as_slice()) {
                Some(text)
            } else {
                None
            }
        }
        None => None,
    }
}

/// What a part of a row becomes, if the detail fits what it is.
pub(crate) fn new_part(
    alloc: Global,
    part: Part,
    detail: &[u8],
    row: &ToldRights,
) -> Result<Option<Vec<u8>>, AllocError>
    ensures { IfOk result (λ new. option_map (λ v. v.items) new ≡ new_part part detail.now row.now) }
{
    let text = told_part(alloc, part, part_text(part, row), detail)?;
    Ok(part_if_allowed(part, text))
}

/// Replaces a part of a row.
pub(crate) fn set_part(row: &mut ToldRights, part: Part, text: Vec<u8>)
    ensures { row.new ≡ with_part part text.items row.old }
{
    match part {
        Part::Owner => row.owner = text,
        Part::Group => row.group = text,
        Part::List => row.list = text,
    }
}
