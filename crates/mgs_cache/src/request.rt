// What is asked of an access list.
ghost use Rattle.std.specs.Prelude.{◌≡◌};
ghost use Rattle.mgs_model.specs.declared.entry.Decision.{Decision as Decided};
ghost use Rattle.mgs_cache.specs.Kept.{kept};
ghost use Rattle.mgs_cache.specs.Requests.{kept_as};

use mgs_model::{Mask, Name};

/// A request for all rights of a mask: what a decision is kept under.
#[derive(Clone, Copy, PartialEq, Eq, Hash)]
pub(crate) struct Request {
    /// The buffer's place in order.
    buffer: usize,
    /// Who asks.
    user: Name,
    /// The mask's bits.
    mask: u32,
}

impl Request {
    /// The request of a user for the rights of a mask on the buffer at a place.
    pub(crate) fn new(buffer: usize, user: &Name, mask: Mask) -> Request
        ensures { (d : Decided) → kept_as (result, d) ≡ kept buffer user.now mask d }
    {
        Request {
            buffer,
            user: *user,
            mask: mask.bits(),
        }
    }
}
