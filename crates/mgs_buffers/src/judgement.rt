// What a judge decides on a right, by the owners and the access list of the buffer at a place.
ghost use Rattle.std.specs.Prelude.{◌≡◌, ◌∷◌, []};
ghost use Rattle.mgs_model.specs.Access.{decider, decision_by};
ghost use Rattle.mgs_cache.specs.Kept.{AreRight};
ghost use Rattle.mgs_buffers.specs.Judging.{StaysRight};

use mgs_acl::List;
use mgs_cache::Judge;
use mgs_model::{Decision, Mask, Name, Owners, Right};
use mgs_policy::{Directory, decide_right};

/// The most entries of a list that is decided outright, with nothing kept: to go through so few costs less than to find a decision.
const OUTRIGHT_LIMIT: usize = 10;

/// Whether a list is decided outright.
pub(crate) fn is_outright(list: &List) -> bool {
    list.len() <= OUTRIGHT_LIMIT
}

/// What a list decides on one right of a user, from what a judge keeps for a place or by deciding and keeping.
pub(crate) fn judged(
    judge: &mut Judge,
    place: usize,
    list: &List,
    owners: &Owners,
    user: &Name,
    directory: &Directory,
    right: Right,
) -> Decision
    requires { AreRight place directory.now owners.now list.now judge.old }
    ensures value { result ≡ decision_by (decider directory.now owners.now user.now list.now) (right ∷ []) }
    ensures stays { StaysRight place directory.now owners.now list.now judge.old judge.new }
{
    if is_outright(list) {
        return decide_right(list, owners, user, directory, right);
    }
    let group = owners.group.as_ref();
    judge.decide(
        place,
        list,
        &owners.owner,
        group,
        user,
        directory,
        Mask::of(right),
    )
}
