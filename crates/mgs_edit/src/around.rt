// What commands ask of what they are given.
ghost use Rattle.std.specs.Prelude.{◌≡◌, ℕ, List, nat_le, nat_lt, ◌==◌, ◌&&◌};
ghost use Rattle.mgs_model.specs.Plans.{count_of, killed};
ghost use Rattle.mgs_model.specs.declared.search.Direction.TheVariants.{Backward, Forward};
ghost use Rattle.mgs_edit.specs.Reading.{gone, kill_joined};

use crate::plan::{Around, Finish, Goes, Joins, STAYS};
use mgs_model::Kind;

/// How often a command acts: the argument, or once.
pub(crate) fn times(around: &Around) -> usize
    ensures { result ≡ count_of around.now.argument }
{
    match around.argument {
        Some(times) => times,
        None => 1,
    }
}

/// Whether a command that is to go on stands at the end of a text of `size` characters.
pub(crate) fn is_at_end(around: &Around, size: usize) -> bool
    ensures { result ≡ (nat_le size around.now.place && nat_lt 0 (count_of around.now.argument)) }
{
    around.place >= size && times(around) > 0
}

/// Whether a command that is to go back stands at the text's start.
pub(crate) fn is_at_start(around: &Around) -> bool
    ensures { result ≡ ((around.now.place == 0) && nat_lt 0 (count_of around.now.argument)) }
{
    around.place == 0 && times(around) > 0
}

/// How a piece joins the kill buffer that is killed forwards, or copied, after a command of that kind.
pub(crate) fn joins_behind(kind: Kind) -> Joins
    ensures { (kill piece : List ℕ) → kill_joined result kill piece ≡ killed Forward kind kill piece }
{
    match kind {
        Kind::Kill => Joins::Behind,
        Kind::Other | Kind::Line { .. } | Kind::Undo { .. } => Joins::New,
    }
}

/// How one joins it that is killed backwards.
pub(crate) fn joins_in_front(kind: Kind) -> Joins
    ensures { (kill piece : List ℕ) → kill_joined result kill piece ≡ killed Backward kind kill piece }
{
    match kind {
        Kind::Kill => Joins::InFront,
        Kind::Other | Kind::Line { .. } | Kind::Undo { .. } => Joins::New,
    }
}

/// The point goes there, and nothing else is left.
pub(crate) fn goes(place: usize) -> Finish
    ensures { result ≡ gone place }
{
    Finish {
        point: Goes::To(place),
        ..STAYS
    }
}
