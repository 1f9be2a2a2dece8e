// A buffer's text is inserted: whole, or not at all.
ghost use Rattle.std.specs.Prelude.{◌≡◌, ℕ, None, IfOk, OnOk, OnErr};
ghost use Rattle.std.specs.List.{position_or_len};
ghost use Rattle.mgs_laws.specs.Apart.{touched_by};
ghost use Rattle.mgs_model.specs.World.{State};
ghost use Rattle.mgs_model.specs.declared.entry.Decision.TheVariants.{Granted};
ghost use Rattle.mgs_buffers.specs.MarkedBuffer.{HasBuffer, marked_at, marked_named};
ghost use Rattle.mgs_plan.specs.Actions.{AreMarks, edited_by};
ghost use Rattle.mgs_plan.specs.declared.outcome.Outcome.TheVariants.{Copies};
ghost use Rattle.mgs_plan.specs.Inserting.{CanPut, IsInserted, insertion_of, leaving, put_outcome, target_decision};
ghost use Rattle.mgs_act.specs.Doing.{IsQuietlyDone, IsReady, copies_of};
ghost use Rattle.mgs_world.specs.Acted.{IsUnchanged};
ghost use Rattle.mgs_world.specs.Sound.{IsSound};
ghost use Rattle.mgs_world.specs.WindowMarks.{WindowMarksDropped};

use crate::text_action::{Spot, leave};
use mgs_buffers::{Buffers, Writer};
use mgs_edit::{Finish, Goes};
use mgs_marks::Marked;
use mgs_model::{Kind, Message, Name, Notice, Short, Touched};
use mgs_plan::{edit_of_insertion, follow, insertion_mask};
use mgs_policy::Directory;
use mgs_session::Session;
use mgs_text::Text;
use mgs_windows::WindowMarks;
use mgs_world::{give_up_mark, reserve_mark, set_mark};

/// What is copied, and where it comes in.
#[derive(Clone, Copy)]
pub struct Copying<'a> {
    /// The marks of the window whose buffer it comes into.
    pub marks: &'a WindowMarks,
    /// The name of the buffer whose text is copied.
    pub source: &'a Name,
    /// The place in the window's text.
    pub place: usize,
}

/// What the insertion of these characters touches.
fn touched_by_insertion(name: &Name, put: &[char]) -> Touched
    ensures { (state : State) (place : ℕ) → result ≡ touched_by (put_outcome state name.now place put.now).effect }
{
    if put.is_empty() {
        Touched::Nowhere
    } else {
        Touched::In(*name)
    }
}

/// Puts characters into a buffer at a place. `Short`: memory was refused, and nothing was done.
fn put_in<T: Marked + Drop>(
    buffers: &mut Buffers<T>,
    writer: Writer<'_>,
    place: usize,
    put: &[char],
) -> Result<(), Short>
    requires kept { HasBuffer writer.name.now buffers.old }
    requires there { writer.at ≡ position_or_len (marked_named writer.name.now) buffers.old }
    requires granted { target_decision writer.directory.now buffers.old writer.user.now writer.name.now place ≡ Granted }
    requires can { CanPut (marked_at writer.name.now buffers.old).buffer put.now place }
    ensures ok { OnOk result (buffers.new ≡ edited_by writer.entry.name.now (insertion_of place put.now) buffers.old) }
    ensures err { OnErr result (buffers.new ≡ buffers.old) }
{
    if put.is_empty() {
        return Ok(());
    }
    let mask = insertion_mask(place, buffers.text_len_at(writer.name, writer.at));
    buffers.edit_at(writer, mask, place, place, put)
}

/// What an insertion leaves: the mark at the place, and the point behind what came in.
fn leaving(place: usize) -> Finish
    ensures { result ≡ leaving place }
{
    Finish {
        point: Goes::Behind,
        mark: Some(place),
        top: None,
        kill: None,
        kind: Kind::Other,
        told: Message::Says(Notice::Silent),
    }
}

/// Puts characters into the window's buffer at a place, with the mark there and the point behind them. `Short`: memory was
/// refused, and nothing was done.
fn insert_marked<T: Marked + Drop>(
    buffers: &mut Buffers<T>,
    directory: &Directory,
    session: &mut Session,
    window_marks: &WindowMarks,
    place: usize,
    put: &[char],
) -> Result<(), Short>
    requires marks { AreMarks buffers.old window_marks.now }
    requires can { CanPut (marked_at window_marks.now.name buffers.old).buffer put.now place }
    requires granted { target_decision directory.now buffers.old session.old.user window_marks.now.name place ≡ Granted }
    ensures ok { OnOk result (IsInserted window_marks.now place put.now buffers.old buffers.new session.old session.new) }
    ensures err { OnErr result (WindowMarksDropped None buffers.old buffers.new) }
    ensures same { OnErr result (session.new ≡ session.old) }
{
    let at = buffers.place_of(&window_marks.name);
    prove!(buffers.is_within_limit(&window_marks.name));
    let mark = reserve_mark(buffers, window_marks)?;
    let writer = Writer {
        directory,
        user: &session.user,
        name: &window_marks.name,
        at,
    };
    match put_in(buffers, writer, place, put) {
        Ok(()) => {
            let behind = place + put.len();
            let spot = Spot {
                marks: window_marks,
                at,
            };
            leave(buffers, session, spot, &leaving(place), behind, None);
            set_mark(buffers, session, window_marks, at, mark, place);
            Ok(())
        }
        Err(short) => {
            give_up_mark(buffers, window_marks, mark);
            Err(short)
        }
    }
}

/// A copy of a buffer's text. `Short`: memory was refused.
fn copied_text<T: Marked + Drop>(buffers: &Buffers<T>, name: &Name) -> Result<Vec<char>, Short>
    requires { HasBuffer name.now buffers.now }
    ensures { IfOk result (λ v. v.items ≡ (marked_at name.now buffers.now).buffer.text) }
{
    buffers.text(name).copy(0, buffers.text_len(name))
}

/// Puts a copy of a buffer's text into the window's, for the session at `at`, and tells what it touched. `Short`: memory was refused,
/// and the world is as it was.
pub fn insert_copy<T: Marked + Drop>(
    buffers: &mut Buffers<T>,
    directory: &Directory,
    sessions: &mut [Session],
    at: usize,
    copying: Copying<'_>,
) -> Result<Touched, Short>
    requires { IsReady directory.now at buffers.old sessions.old (Copies copying.marks.now copying.source.now copying.place) }
    ensures sound { IsSound buffers.new sessions.new }
    ensures done { IfOk result (IsQuietlyDone directory.now at (copies_of copying.entry) buffers.old sessions.old buffers.new sessions.new) }
    ensures err { OnErr result (IsUnchanged buffers.old sessions.old buffers.new sessions.new) }
{
    let name = &copying.marks.name;
    let put = copied_text(buffers, copying.source)?;
    let edit = edit_of_insertion(buffers, name, copying.place, &put);
    insert_marked(
        buffers,
        directory,
        &mut sessions[at],
        copying.marks,
        copying.place,
        &put,
    )?;
    follow(sessions, name, &edit);
    Ok(touched_by_insertion(name, &put))
}
