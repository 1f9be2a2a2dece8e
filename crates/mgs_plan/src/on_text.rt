// What a command on a text comes to for a session.
ghost use Rattle.std.specs.Prelude.{◌≡◌, [], IfSome, true};
ghost use Rattle.mgs_model.specs.Outcome.{Run};
ghost use Rattle.mgs_session.specs.Sessions.{window_marks_of};
ghost use Rattle.mgs_plan.specs.Actions.{AreMarks, CanDoIn, IsActionOf, is_on_text, marks_in};
ghost use Rattle.mgs_plan.specs.Deciding.{CanPerform, IsActionGranted, IsPlanned};
ghost use Rattle.mgs_world.specs.Worlds.{idle, state_of};

use crate::action::Action;
use crate::actor::Actor;
use crate::given::Given;
use crate::list_scroll::plan_rows;
use crate::outcome::Outcome;
use crate::text_command::plan;
use mgs_buffers::{Buffers, Found};
use mgs_marks::Marked;
use mgs_model::Command;
use mgs_policy::Directory;
use mgs_session::{Session, selected_window_marks};
use mgs_windows::WindowMarks;

/// What a command comes to in the window that a session has selected.
fn plan_for<T: Marked + Drop>(
    found: &Found<T>,
    directory: &Directory,
    session: &Session,
    window_marks: &WindowMarks,
    command: Command,
    argument: Option<usize>,
) -> Action
    requires marks { AreMarks found.now.all (marks_in found.now.name window_marks.now) }
    requires here { is_on_text command ≡ true }
    ensures value { IsActionOf directory.now found.now.all session.now (marks_in found.now.name window_marks.now) command argument [] result }
    ensures can { CanDoIn found.now.all found.now.name session.now.kill result }
    ensures granted { IsActionGranted directory.now found.now.all session.now.user found.now.name result }
{
    let given = Given {
        argument,
        kind: session.state.kind,
        height: session.windows.selected_window().height,
        fill: session.state.fill,
    };
    let actor = Actor {
        directory,
        user: &session.user,
    };
    plan(
        found,
        &actor,
        window_marks,
        &given,
        session.kill.as_slice(),
        command,
    )
}

/// What a command on a text comes to for a session at rest: in the text that its selected window shows, or in the rows of the list
/// there.
pub(crate) fn plan_text<T: Marked + Drop>(
    buffers: &Buffers<T>,
    directory: &Directory,
    session: &Session,
    command: Command,
    argument: Option<usize>,
) -> Outcome
    requires marks { IfSome (window_marks_of session.now) (AreMarks buffers.now) }
    requires fresh { state_of session.now.state ≡ idle (state_of session.now.state) }
    requires here { is_on_text command ≡ true }
    ensures value { IsPlanned directory.now buffers.now session.now (Run command argument []) result }
    ensures can { CanPerform directory.now buffers.now session.now result }
{
    let Some(window_marks) = selected_window_marks(session) else {
        return plan_rows(session, command);
    };
    let found = buffers.find(&window_marks.name);
    let action = plan_for(&found, directory, session, &window_marks, command, argument);
    Outcome::Acts(window_marks, found.place(), action)
}
