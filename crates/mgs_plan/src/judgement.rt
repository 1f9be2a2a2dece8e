// Rights are judged before anything is done.
ghost use Rattle.std.specs.Prelude.{◌≡◌, None, IfSome};
ghost use Rattle.mgs_model.specs.Rights.{bit_of};
ghost use Rattle.mgs_buffers.specs.MarkedBuffer.{HasBuffer};
ghost use Rattle.mgs_plan.specs.Deciding.{CanPerformJudged, IsGranted, IsJudged, Refuses};
ghost use Rattle.mgs_plan.specs.Inserting.{rights_decision};

use crate::actor::Actor;
use crate::outcome::Outcome;
use crate::text_command::denial;
use mgs_buffers::Buffers;
use mgs_marks::Marked;
use mgs_model::{Mask, Message, Name, Right};
use mgs_policy::Directory;
use mgs_session::Session;

/// Why a user may not act on a buffer by these rights, if there is a reason.
pub(crate) fn refusal<T: Marked + Drop>(
    buffers: &Buffers<T>,
    actor: &Actor<'_>,
    name: &Name,
    mask: Mask,
) -> Option<Message>
    requires { HasBuffer name.now buffers.now }
    ensures refused { IfSome result (Refuses (rights_decision actor.now.directory.now buffers.now actor.now.user.now name.now mask)) }
    ensures none { result ≡ None → IsGranted actor.now.directory.now buffers.now actor.now.user.now name.now mask }
{
    denial(buffers.decide_all(actor.directory, name, actor.user, mask))
}

/// What an act of a session comes to that needs a right on a buffer, where it comes to that when the right is granted.
pub(crate) fn judged<T: Marked + Drop>(
    buffers: &Buffers<T>,
    directory: &Directory,
    session: &Session,
    name: &Name,
    right: Right,
    granted: Outcome,
) -> Outcome
    requires { HasBuffer name.now buffers.now }
    ensures value { IsJudged directory.now buffers.now session.now.user name.now (bit_of right) granted result }
    ensures can { CanPerformJudged directory.now buffers.now session.now.user name.now (bit_of right) granted result }
{
    let actor = Actor {
        directory,
        user: &session.user,
    };
    match refusal(buffers, &actor, name, Mask::of(right)) {
        Some(message) => Outcome::Fails(message),
        None => granted,
    }
}
