// What an act of a session comes to.
ghost use Rattle.std.specs.Prelude.{◌≡◌, IfSome, true};
ghost use Rattle.mgs_session.specs.Sessions.{window_marks_of};
ghost use Rattle.mgs_plan.specs.Actions.{AreMarks, act_of, is_done_here};
ghost use Rattle.mgs_plan.specs.Deciding.{CanPerform, IsPlanned};
ghost use Rattle.mgs_world.specs.Worlds.{idle, state_of};

use crate::entry_list::plan_list;
use crate::key_act::{KeyAct, counted};
use crate::on_text::plan_text;
use crate::outcome::Outcome;
use crate::rule_change::{Ruling, plan_rule};
use crate::save::plan_save;
use mgs_buffers::Buffers;
use mgs_marks::Marked;
use mgs_model::{Command, Message, Notice};
use mgs_policy::Directory;
use mgs_session::Session;

/// What an act comes to for a session that has nothing half read and an empty echo line: a command on the text that it shows, an
/// arrangement of its windows, a setting, a question, an entry that is deleted, a list that is shown, a save, or a word that runs no
/// command.
pub fn plan_act<T: Marked + Drop>(
    buffers: &Buffers<T>,
    directory: &Directory,
    session: &Session,
    done: KeyAct,
) -> Outcome
    requires marks { IfSome (window_marks_of session.now) (AreMarks buffers.now) }
    requires fresh { state_of session.now.state ≡ idle (state_of session.now.state) }
    requires here { is_done_here done ≡ true }
    ensures value { IsPlanned directory.now buffers.now session.now (act_of done) result }
    ensures can { CanPerform directory.now buffers.now session.now result }
{
    let KeyAct::Run(command, argument) = done else {
        return Outcome::Fails(Message::Says(Notice::KeyNotBound));
    };
    let count = counted(argument);
    match command {
        Command::Set(setting) => Outcome::Sets(setting, count),
        Command::Ask(question) => Outcome::Asks(question, argument),
        Command::Rearrange(arrangement) => Outcome::Arranges(arrangement, count),
        Command::Entries(change) => {
            let ruling = Ruling::Entries(change);
            plan_rule(buffers, directory, session, ruling, count, &[])
        }
        Command::ListEntries => plan_list(buffers, directory, session),
        Command::SaveBuffer => plan_save(buffers, directory, session),
        _ => plan_text(buffers, directory, session, command, count),
    }
}
