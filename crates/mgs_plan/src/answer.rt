// What the answer to a question comes to: the command that the question is for.
ghost use Rattle.std.specs.Prelude.{◌≡◌, ◌≤◌, length, IfSome, true};
ghost use Rattle.mgs_session.specs.Sessions.{window_marks_of};
ghost use Rattle.mgs_plan.specs.Actions.{AreMarks, is_answered, takes_answer};
ghost use Rattle.mgs_plan.specs.Deciding.{CanPerform, IsPlanned};
ghost use Rattle.mgs_plan.specs.Searching.{answer_act, typed_act};
ghost use Rattle.mgs_world.specs.Worlds.{idle, state_of};

use crate::by_name::plan_by_name;
use crate::on_text::plan_text;
use crate::outcome::Outcome;
use crate::rule_change::{Ruling, plan_rule};
use crate::typed_search::plan_search;
use mgs_buffers::Buffers;
use mgs_edit::line_wanted;
use mgs_marks::Marked;
use mgs_model::{Command, Motion, Question, Seeking};
use mgs_policy::Directory;
use mgs_session::Session;

/// What a command for which something was typed comes to for a session at rest.
fn plan_typed<T: Marked + Drop>(
    buffers: &Buffers<T>,
    directory: &Directory,
    session: &Session,
    command: Command,
    argument: Option<usize>,
    typed: &[char],
) -> Outcome
    requires here { takes_answer command ≡ true }
    requires fresh { state_of session.now.state ≡ idle (state_of session.now.state) }
    requires few { length typed.now ≤ 120 }
    requires marks { IfSome (window_marks_of session.now) (AreMarks buffers.now) }
    ensures value { IsPlanned directory.now buffers.now session.now (typed_act command argument typed.now (state_of session.now.state)) result }
    ensures can { CanPerform directory.now buffers.now session.now result }
{
    match command {
        Command::Named(by_name) => plan_by_name(buffers, directory, session, by_name, typed),
        Command::Entries(change) => {
            let ruling = Ruling::Entries(change);
            plan_rule(buffers, directory, session, ruling, argument, typed)
        }
        Command::SetOwner => {
            let ruling = Ruling::Owner;
            plan_rule(buffers, directory, session, ruling, argument, typed)
        }
        Command::SetGroup => {
            let ruling = Ruling::Group;
            plan_rule(buffers, directory, session, ruling, argument, typed)
        }
        Command::Move(motion) => match motion {
            Motion::GoToLine => {
                let goes = Command::Move(Motion::GoToLine);
                let line = line_wanted(argument, typed);
                plan_text(buffers, directory, session, goes, line)
            }
            _ => unreachable!(),
        },
        Command::Seek(seeking) => match seeking {
            Seeking::SearchFor(direction) => {
                plan_search(buffers, directory, session, direction, typed)
            }
            _ => unreachable!(),
        },
        _ => unreachable!(),
    }
}

/// What the answer to a question comes to for a session at rest, of a question that asks for neither a command's name nor what a
/// query-replace is to replace: `typed` is the answer, and the command is the one that the question is for.
pub fn plan_answer<T: Marked + Drop>(
    buffers: &Buffers<T>,
    directory: &Directory,
    session: &Session,
    question: Question,
    argument: Option<usize>,
    typed: &[char],
) -> Outcome
    requires here { is_answered question ≡ true }
    requires fresh { state_of session.now.state ≡ idle (state_of session.now.state) }
    requires few { length typed.now ≤ 120 }
    requires marks { IfSome (window_marks_of session.now) (AreMarks buffers.now) }
    ensures value { IsPlanned directory.now buffers.now session.now (answer_act question argument typed.now (state_of session.now.state)) result }
    ensures can { CanPerform directory.now buffers.now session.now result }
{
    let command = question.asking().command;
    plan_typed(buffers, directory, session, command, argument, typed)
}
