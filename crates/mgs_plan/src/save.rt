// What a save comes to: of the text that a session's selected window shows.
ghost use Rattle.std.specs.Prelude.{◌≡◌, ℕ, [], Option, None, IfSome};
ghost use Rattle.mgs_model.specs.Outcome.{Run};
ghost use Rattle.mgs_model.specs.declared.session.Command.TheVariants.{SaveBuffer};
ghost use Rattle.mgs_buffers.specs.MarkedBuffer.{HasBuffer};
ghost use Rattle.mgs_session.specs.Sessions.{window_marks_of};
ghost use Rattle.mgs_plan.specs.Actions.{AreMarks};
ghost use Rattle.mgs_plan.specs.Deciding.{CanPerform, CanSave, IsPlanned};
ghost use Rattle.mgs_plan.specs.Saving.{IsSaveLeft, IsSaveRefused};

use crate::outcome::Outcome;
use mgs_buffers::Buffers;
use mgs_marks::Marked;
use mgs_model::{Decision, Mask, Message, Name, Notice, Right};
use mgs_policy::Directory;
use mgs_session::{Session, selected_window_marks};

/// Why a user may not have a buffer saved, if there is a reason: the rights are asked first, then whether a macro plays, and then the
/// file.
fn refusal<T: Marked + Drop>(
    buffers: &Buffers<T>,
    directory: &Directory,
    user: &Name,
    name: &Name,
    is_playing: bool,
) -> Option<Message>
    requires { HasBuffer name.now buffers.now }
    ensures refused { IfSome result (IsSaveRefused directory.now user.now name.now buffers.now is_playing) }
    ensures none { result ≡ None → IsSaveLeft directory.now user.now name.now buffers.now is_playing }
    ensures can { result ≡ None → CanSave directory.now buffers.now user.now name.now }
{
    let mask = Mask::from_bits(Right::ReadData.bit() + Right::WriteData.bit());
    let decision = buffers.decide_all(directory, name, user, mask);
    match decision {
        Decision::DeniedBy { .. } | Decision::NotGranted { .. } => Some(Message::Denied(decision)),
        Decision::Granted => {
            if is_playing {
                Some(Message::Says(Notice::InMacro))
            } else if buffers.has_file(name) {
                None
            } else {
                Some(Message::Says(Notice::NoFile))
            }
        }
    }
}

/// What it comes to for a session.
pub(crate) fn plan_save<T: Marked + Drop>(
    buffers: &Buffers<T>,
    directory: &Directory,
    session: &Session,
) -> Outcome
    requires marks { IfSome (window_marks_of session.now) (AreMarks buffers.now) }
    ensures value { (n : Option ℕ) → IsPlanned directory.now buffers.now session.now (Run SaveBuffer n []) result }
    ensures can { CanPerform directory.now buffers.now session.now result }
{
    let Some(window_marks) = selected_window_marks(session) else {
        return Outcome::Fails(Message::Says(Notice::NoBuffer));
    };
    let name = window_marks.name;
    let is_playing = session.state.player.is_playing();
    match refusal(buffers, directory, &session.user, &name, is_playing) {
        Some(message) => Outcome::Fails(message),
        None => Outcome::Saves(name),
    }
}
