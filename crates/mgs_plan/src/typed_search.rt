// What a search for what was typed comes to.
ghost use Rattle.std.specs.Prelude.{◌≡◌, ◌≤◌, ℕ, List, length, Option, IfSome};
ghost use Rattle.mgs_buffers.specs.MarkedBuffer.{HasBuffer, marked_at};
ghost use Rattle.mgs_plan.specs.Actions.{AreMarks, CanDoIn, IsDoneBy, IsSearchFor, IsSearchIn};
ghost use Rattle.mgs_session.specs.Sessions.{window_marks_of};
ghost use Rattle.mgs_plan.specs.Deciding.{CanPerform, IsActionGranted, IsPlanned};
ghost use Rattle.mgs_plan.specs.Searching.{search_act, sought};
ghost use Rattle.mgs_world.specs.Worlds.{idle, state_of};

use crate::action::Action;
use crate::actor::Actor;
use crate::outcome::Outcome;
use crate::text_command::denial;
use mgs_buffers::{Buffers, Found};
use mgs_edit::{Finish, Goes};
use mgs_marks::Marked;
use mgs_model::{Direction, Kind, Mask, Message, Notice, Right};
use mgs_policy::Directory;
use mgs_search::search_for;
use mgs_session::{Session, selected_window_marks};
use mgs_windows::WindowMarks;

/// What a search comes to from a place, where reading is granted: the point goes to where it ends.
fn plan_granted<T: Marked + Drop>(
    found: &Found<T>,
    place: usize,
    direction: Direction,
    pattern: &[char],
) -> Action
    requires { place ≤ length (marked_at found.now.name found.now.all).buffer.text }
    ensures value { IsSearchIn found.now.all found.now.name place direction pattern.now result }
    ensures can { (kill : List ℕ) → CanDoIn found.now.all found.now.name kill result }
    ensures by { (mask : ℕ) → IsDoneBy mask result }
{
    match search_for(found.text(), place, direction, pattern) {
        Ok(p) => Action::Moves(Finish {
            point: Goes::To(p),
            mark: None,
            top: None,
            kill: None,
            kind: Kind::Other,
            told: Message::Says(Notice::Silent),
        }),
        Err(message) => Action::Fails(message),
    }
}

/// What a search for a pattern comes to through a window's marks, by a user.
fn plan<T: Marked + Drop>(
    buffers: &Buffers<T>,
    actor: &Actor<'_>,
    window_marks: &WindowMarks,
    direction: Direction,
    pattern: &[char],
) -> Action
    requires kept { HasBuffer window_marks.now.name buffers.now }
    requires marks { AreMarks buffers.now window_marks.now }
    ensures value { IsSearchFor actor.now.directory.now buffers.now actor.now.user.now window_marks.now direction pattern.now result }
    ensures can { (kill : List ℕ) → CanDoIn buffers.now window_marks.now.name kill result }
    ensures granted { IsActionGranted actor.now.directory.now buffers.now actor.now.user.now window_marks.now.name result }
{
    let found = buffers.find(&window_marks.name);
    let mask = Mask::of(Right::ReadData);
    match denial(found.decide_all(actor.directory, actor.user, mask)) {
        Some(message) => Action::Fails(message),
        None => plan_granted(&found, found.pos(window_marks.point), direction, pattern),
    }
}

/// What a search for what was typed comes to, or for the session's search string where nothing was.
fn plan_meant<T: Marked + Drop>(
    buffers: &Buffers<T>,
    directory: &Directory,
    session: &Session,
    window_marks: &WindowMarks,
    direction: Direction,
    typed: &[char],
) -> Action
    requires { AreMarks buffers.now window_marks.now }
    ensures value { IsSearchFor directory.now buffers.now session.now.user window_marks.now direction (sought session.now.state.pattern typed.now) result }
    ensures can { (kill : List ℕ) → CanDoIn buffers.now window_marks.now.name kill result }
    ensures granted { IsActionGranted directory.now buffers.now session.now.user window_marks.now.name result }
{
    let actor = Actor {
        directory,
        user: &session.user,
    };
    let pattern = if typed.is_empty() {
        session.state.pattern.as_slice()
    } else {
        typed
    };
    plan(buffers, &actor, window_marks, direction, pattern)
}

/// What a search comes to for a session at rest, whatever its argument: for what was typed, or for the search string where nothing was.
pub(crate) fn plan_search<T: Marked + Drop>(
    buffers: &Buffers<T>,
    directory: &Directory,
    session: &Session,
    direction: Direction,
    typed: &[char],
) -> Outcome
    requires marks { IfSome (window_marks_of session.now) (AreMarks buffers.now) }
    requires fresh { state_of session.now.state ≡ idle (state_of session.now.state) }
    ensures value { (n : Option ℕ) → IsPlanned directory.now buffers.now session.now (search_act session.now direction n typed.now) result }
    ensures can { CanPerform directory.now buffers.now session.now result }
{
    let Some(window_marks) = selected_window_marks(session) else {
        return Outcome::Fails(Message::Says(Notice::NoBuffer));
    };
    let action = plan_meant(buffers, directory, session, &window_marks, direction, typed);
    let place = buffers.place_of(&window_marks.name);
    Outcome::Acts(window_marks, place, action)
}
