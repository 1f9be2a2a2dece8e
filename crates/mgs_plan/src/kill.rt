// What the killing of a buffer comes to: of the one of the name that was typed, or where nothing was typed, the one whose text or access
// list is shown.
ghost use Rattle.std.specs.Prelude.{◌≡◌, ℕ, Option, IfErr, IfOk};
ghost use Rattle.mgs_model.specs.Names.{IsName};
ghost use Rattle.mgs_model.specs.Outcome.{Run};
ghost use Rattle.mgs_model.specs.declared.session.ByName.TheVariants.{KillBuffer};
ghost use Rattle.mgs_model.specs.declared.session.Command.TheVariants.{Named};
ghost use Rattle.mgs_buffers.specs.MarkedBuffer.{HasBuffer};
ghost use Rattle.mgs_plan.specs.Deciding.{CanPerform, IsPlanned};
ghost use Rattle.mgs_plan.specs.Killing.{IsKillRefused, name_meant};

use crate::judgement::judged;
use crate::outcome::Outcome;
use mgs_buffers::Buffers;
use mgs_marks::Marked;
use mgs_model::{Message, Name, Notice, Right};
use mgs_policy::Directory;
use mgs_session::{Session, subject};

/// The name of the buffer that is meant, or that there is none.
fn meant<T: Marked + Drop>(
    buffers: &Buffers<T>,
    subject: Option<Name>,
    typed: &[char],
) -> Result<Name, Message>
    ensures name { IfOk result (λ n. n ≡ name_meant subject typed.now) }
    ensures form { IfOk result (λ n. IsName n) }
    ensures kept { IfOk result (λ n. HasBuffer n buffers.now) }
    ensures none { IfErr result (IsKillRefused buffers.now (name_meant subject typed.now)) }
{
    if let Some(name) = buffers.name_typed(typed) {
        return Ok(name);
    }
    if !typed.is_empty() {
        return Err(Message::Says(Notice::NoSuchBuffer));
    }
    match subject {
        Some(name) if buffers.has(&name) => Ok(name),
        Some(_) => Err(Message::Says(Notice::NoSuchBuffer)),
        None => Err(Message::Says(Notice::NoBuffer)),
    }
}

/// What it comes to for a session.
pub(crate) fn plan_kill<T: Marked + Drop>(
    buffers: &Buffers<T>,
    directory: &Directory,
    session: &Session,
    typed: &[char],
) -> Outcome
    ensures value { (n : Option ℕ) → IsPlanned directory.now buffers.now session.now (Run (Named KillBuffer) n typed.now) result }
    ensures can { CanPerform directory.now buffers.now session.now result }
{
    match meant(buffers, subject(session), typed) {
        Err(message) => Outcome::Fails(message),
        Ok(name) => {
            let kills = Outcome::Kills(name);
            judged(buffers, directory, session, &name, Right::Delete, kills)
        }
    }
}
