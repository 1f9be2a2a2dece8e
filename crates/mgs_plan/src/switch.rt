// What a switch to the buffer of a typed name comes to.
ghost use Rattle.std.specs.Prelude.{◌≡◌, ℕ, Option, false};
ghost use Rattle.mgs_model.specs.Access.{Directory};
ghost use Rattle.mgs_model.specs.Outcome.{Run};
ghost use Rattle.mgs_model.specs.declared.session.ByName.TheVariants.{SwitchToBuffer};
ghost use Rattle.mgs_model.specs.declared.session.Command.TheVariants.{Named};
ghost use Rattle.mgs_buffers.specs.MarkedBuffer.{has_buffer};
ghost use Rattle.mgs_session.specs.declared.Session as code;
ghost use Rattle.mgs_plan.specs.Deciding.{CanPerform, IsCreation, IsPlanned};

use crate::judgement::judged;
use crate::new_name::name_typed;
use crate::outcome::Outcome;
use mgs_buffers::Buffers;
use mgs_marks::Marked;
use mgs_model::{BUFFER_LIMIT, Message, Notice, Right};
use mgs_policy::Directory;
use mgs_session::Session;

/// What a switch to a buffer that is not there comes to: the name is judged first, and then whether there is room.
fn switch_new<T: Marked + Drop>(buffers: &Buffers<T>, typed: &[char]) -> Outcome
    requires { has_buffer typed.now buffers.now ≡ false }
    ensures value { IsCreation buffers.now typed.now result }
    ensures can { (directory : Directory) (h : code.Session) → CanPerform directory buffers.now h result }
{
    let Some(name) = name_typed(typed) else {
        return Outcome::Fails(Message::Says(Notice::BadName));
    };
    if buffers.len() >= BUFFER_LIMIT {
        return Outcome::Fails(Message::Says(Notice::TooManyBuffers));
    }
    Outcome::Creates(name)
}

/// What it comes to for a session.
pub(crate) fn plan_switch<T: Marked + Drop>(
    buffers: &Buffers<T>,
    directory: &Directory,
    session: &Session,
    typed: &[char],
) -> Outcome
    ensures value { (n : Option ℕ) → IsPlanned directory.now buffers.now session.now (Run (Named SwitchToBuffer) n typed.now) result }
    ensures can { CanPerform directory.now buffers.now session.now result }
{
    match buffers.name_typed(typed) {
        None => switch_new(buffers, typed),
        Some(name) => {
            let shows = Outcome::Shows(name);
            judged(
                buffers,
                directory,
                session,
                &name,
                Right::ReadAttributes,
                shows,
            )
        }
    }
}
