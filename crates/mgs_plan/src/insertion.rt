// What the insertion of a buffer's text into the one that is shown comes to.
ghost use Rattle.std.specs.Prelude.{◌≡◌, ◌<◌, ◌≤◌, ℕ, length, Option, Some, None, IfSome};
ghost use Rattle.mgs_model.specs.Outcome.{Run};
ghost use Rattle.mgs_model.specs.declared.entry.Decision.TheVariants.{Granted};
ghost use Rattle.mgs_buffers.specs.MarkedBuffer.{HasBuffer, marked_at};
ghost use Rattle.mgs_model.specs.declared.session.ByName.TheVariants.{InsertBuffer};
ghost use Rattle.mgs_model.specs.declared.session.Command.TheVariants.{Named};
ghost use Rattle.mgs_session.specs.Sessions.{window_marks_of};
ghost use Rattle.mgs_plan.specs.Actions.{AreMarks};
ghost use Rattle.mgs_plan.specs.Deciding.{CanPerform, CanWhereInserted, IsCopy, IsCopyAt, IsGranted, IsPlanned, Refuses};
ghost use Rattle.mgs_plan.specs.Inserting.{acting_place, copy_decision, is_copy_full, rights_decision, target_decision};

use crate::actor::Actor;
use crate::judgement::refusal;
use crate::outcome::Outcome;
use crate::text_command::insertion_mask;
use mgs_buffers::Buffers;
use mgs_marks::Marked;
use mgs_model::{Mask, Message, Name, Notice, Right, TEXT_LIMIT};
use mgs_policy::Directory;
use mgs_session::{Session, selected_window_marks};
use mgs_text::Text;
use mgs_windows::WindowMarks;

/// Why a user may not read the buffer whose text is to come in, if there is a reason.
fn source_refusal<T: Marked + Drop>(
    buffers: &Buffers<T>,
    actor: &Actor<'_>,
    source: &Name,
) -> Option<Message>
    requires { HasBuffer source.now buffers.now }
    ensures refused { IfSome result (Refuses (rights_decision actor.now.directory.now buffers.now actor.now.user.now source.now 1)) }
    ensures none { result ≡ None → IsGranted actor.now.directory.now buffers.now actor.now.user.now source.now 1 }
{
    refusal(buffers, actor, source, Mask::of(Right::ReadData))
}

/// Why a user may not insert one buffer's text at a place of another, if there is a reason: the source is judged first.
fn copy_refusal<T: Marked + Drop>(
    buffers: &Buffers<T>,
    actor: &Actor<'_>,
    source: &Name,
    name: &Name,
    place: usize,
) -> Option<Message>
    requires source { HasBuffer source.now buffers.now }
    requires target { HasBuffer name.now buffers.now }
    ensures refused { IfSome result (Refuses (copy_decision actor.now.directory.now buffers.now actor.now.user.now source.now name.now place)) }
    ensures none { result ≡ None → copy_decision actor.now.directory.now buffers.now actor.now.user.now source.now name.now place ≡ Granted }
    ensures target { result ≡ None → target_decision actor.now.directory.now buffers.now actor.now.user.now name.now place ≡ Granted }
{
    match source_refusal(buffers, actor, source) {
        Some(message) => Some(message),
        None => {
            let mask = insertion_mask(place, buffers.text_len(name));
            refusal(buffers, actor, name, mask)
        }
    }
}

/// Where a user acts: at the window's point, or at the text's end where the text may not be read.
fn acting_place<T: Marked + Drop>(
    buffers: &Buffers<T>,
    actor: &Actor<'_>,
    window_marks: &WindowMarks,
) -> usize
    requires kept { HasBuffer window_marks.now.name buffers.now }
    requires marks { AreMarks buffers.now window_marks.now }
    ensures value { result ≡ acting_place actor.now.directory.now buffers.now actor.now.user.now window_marks.now }
    ensures within { result ≤ length (marked_at window_marks.now.name buffers.now).buffer.text }
{
    let name = &window_marks.name;
    if buffers.grants(actor.directory, name, actor.user, Right::ReadData) {
        buffers.pos(name, window_marks.point)
    } else {
        buffers.text_len(name)
    }
}

/// Whether a buffer has no room for another's text, wherever it comes in.
fn is_full<T: Marked + Drop>(buffers: &Buffers<T>, source: &Name, name: &Name) -> bool
    requires source { HasBuffer source.now buffers.now }
    requires target { HasBuffer name.now buffers.now }
    ensures { (place : ℕ) → result ≡ is_copy_full buffers.now source.now name.now place }
{
    let put = buffers.text_len(source);
    put > 0 && (buffers.text_len(name) + put > TEXT_LIMIT || buffers.serial(name) == u64::MAX)
}

/// What it comes to at a place of a window's buffer, where the rights are granted.
fn copied_at<T: Marked + Drop>(
    buffers: &Buffers<T>,
    source: Name,
    window_marks: &WindowMarks,
    place: usize,
) -> Outcome
    requires source { HasBuffer source buffers.now }
    requires target { HasBuffer window_marks.now.name buffers.now }
    requires within { place ≤ length (marked_at window_marks.now.name buffers.now).buffer.text }
    ensures value { IsCopyAt buffers.now source window_marks.now.name place result }
    ensures can { CanWhereInserted buffers.now window_marks.now place result }
{
    if is_full(buffers, &source, &window_marks.name) {
        return Outcome::Fails(Message::Says(Notice::BufferFull));
    }
    Outcome::Copies(*window_marks, source, place)
}

/// What it comes to for a session, through the marks of its selected window.
fn copied<T: Marked + Drop>(
    buffers: &Buffers<T>,
    directory: &Directory,
    session: &Session,
    source: Name,
    window_marks: &WindowMarks,
) -> Outcome
    requires source { HasBuffer source buffers.now }
    requires target { HasBuffer window_marks.now.name buffers.now }
    requires marks { AreMarks buffers.now window_marks.now }
    requires shown { window_marks_of session.now ≡ Some window_marks.now }
    ensures value { IsCopy directory.now buffers.now session.now.user source window_marks.now result }
    ensures can { CanPerform directory.now buffers.now session.now result }
{
    let name = &window_marks.name;
    let actor = Actor {
        directory,
        user: &session.user,
    };
    let place = acting_place(buffers, &actor, window_marks);
    match copy_refusal(buffers, &actor, &source, name, place) {
        Some(message) => Outcome::Fails(message),
        None => copied_at(buffers, source, window_marks, place),
    }
}

/// The same, by the name that was typed.
pub(crate) fn plan_insertion<T: Marked + Drop>(
    buffers: &Buffers<T>,
    directory: &Directory,
    session: &Session,
    typed: &[char],
) -> Outcome
    requires marks { IfSome (window_marks_of session.now) (AreMarks buffers.now) }
    ensures value { (n : Option ℕ) → IsPlanned directory.now buffers.now session.now (Run (Named InsertBuffer) n typed.now) result }
    ensures can { CanPerform directory.now buffers.now session.now result }
{
    let Some(window_marks) = selected_window_marks(session) else {
        return Outcome::Fails(Message::Says(Notice::NoBuffer));
    };
    match buffers.name_typed(typed) {
        None => Outcome::Fails(Message::Says(Notice::NoSuchBuffer)),
        Some(source) => copied(buffers, directory, session, source, &window_marks),
    }
}
