// What a command on the buffer of a typed name comes to.
ghost use Rattle.std.specs.Prelude.{ℕ, Option, IfSome};
ghost use Rattle.mgs_model.specs.Outcome.{Run};
ghost use Rattle.mgs_model.specs.declared.session.Command.TheVariants.{Named};
ghost use Rattle.mgs_session.specs.Sessions.{window_marks_of};
ghost use Rattle.mgs_plan.specs.Actions.{AreMarks};
ghost use Rattle.mgs_plan.specs.Deciding.{CanPerform, IsPlanned};

use crate::insertion::plan_insertion;
use crate::kill::plan_kill;
use crate::outcome::Outcome;
use crate::switch::plan_switch;
use mgs_buffers::Buffers;
use mgs_marks::Marked;
use mgs_model::ByName;
use mgs_policy::Directory;
use mgs_session::Session;

/// What it comes to for a session.
pub(crate) fn plan_by_name<T: Marked + Drop>(
    buffers: &Buffers<T>,
    directory: &Directory,
    session: &Session,
    command: ByName,
    typed: &[char],
) -> Outcome
    requires marks { IfSome (window_marks_of session.now) (AreMarks buffers.now) }
    ensures value { (n : Option ℕ) → IsPlanned directory.now buffers.now session.now (Run (Named command) n typed.now) result }
    ensures can { CanPerform directory.now buffers.now session.now result }
{
    match command {
        ByName::SwitchToBuffer => plan_switch(buffers, directory, session, typed),
        ByName::KillBuffer => plan_kill(buffers, directory, session, typed),
        ByName::InsertBuffer => plan_insertion(buffers, directory, session, typed),
    }
}
