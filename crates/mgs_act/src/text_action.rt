// An action is done: in the buffers, and to the session that acts.
ghost use Rattle.std.specs.Prelude.{◌≡◌, ◌+◌, ◌-◌, ◌<◌, ◌≤◌, ℕ, List, [], length, take, Option, Some, None, IfOk, OnOk, OnErr, true};
ghost use Rattle.std.specs.List.{position_or_len};
ghost use Rattle.mgs_laws.specs.Refusals.{kill_takes_memory};
ghost use Rattle.mgs_buffers.specs.Changing.{writes};
ghost use Rattle.mgs_buffers.specs.MarkedBuffer.{HasBuffer, marked_at, marked_named};
ghost use Rattle.mgs_edit.specs.Reading.{ChangeWithin, GoesWithin, IsWithin, PieceWithin, kill_read, point_read, top_read};
ghost use Rattle.mgs_session.specs.Sessions.{acted, told};
ghost use Rattle.mgs_plan.specs.declared.action.Action.TheVariants.{Edits, Moves, Undoes};
ghost use Rattle.mgs_plan.specs.declared.outcome.Outcome.TheVariants.{Acts};
ghost use Rattle.mgs_plan.specs.Actions.{AreMarks, CanBeDone, edited_by, kill_set, mark_told, removed_by};
ghost use Rattle.mgs_plan.specs.Deciding.{IsActionGranted, IsGranted};
ghost use Rattle.mgs_act.specs.Doing.{IsQuietlyDone, IsReady, TakesMemory, acts_at};
ghost use Rattle.mgs_act.specs.Performing.{CanComeBack, HasRoom, IsCarriedOut, IsEdit, IsTarget, IsTouched, MayBeShort, PointCanStand, TopCanStand, acted_in, back_in, buffers_acted, buffers_undone, change_in, end_in, killed_in, marks_left, undone_in};
ghost use Rattle.mgs_world.specs.Acted.{IsUnchanged};
ghost use Rattle.mgs_world.specs.Sound.{IsSound};
ghost use Rattle.mgs_world.specs.WindowMarks.{WindowMarksDropped};

use mgs_buffers::{Buffers, Writer};
use mgs_edit::{
    Change, Finish, Goes, Joins, Piece, Put, Undone, is_edit, is_undo_an_edit, put_chars,
};
use mgs_marks::Marked;
use mgs_model::{Kind, MarkId, Mask, Message, Name, Notice, Right, Short, Touched};
use mgs_plan::{Action, edit_of, follow};
use mgs_policy::Directory;
use mgs_session::{KillBuffer, Session, fail, finish, set_kill};
use mgs_text::Text;
use mgs_windows::WindowMarks;
use mgs_world::{give_up_mark, reserve_mark, set_mark};

/// The marks of a window, and where the buffer is in which they stand.
#[derive(Clone, Copy)]
pub struct Spot<'a> {
    /// The window's marks.
    pub marks: &'a WindowMarks,
    /// The place of its buffer among all buffers, from 0.
    pub at: usize,
}

/// A piece of a buffer's text is killed, if one is: where it joins behind, it is in the kill buffer then, and for any other the
/// kill buffer that it makes is handed back, for later. `Short`: memory was refused, and the kill buffer is as it was.
fn killed_if<T: Marked + Drop>(
    buffers: &Buffers<T>,
    spot: Spot<'_>,
    kill: &mut KillBuffer,
    piece: &Option<Piece>,
) -> Result<Option<Vec<char>>, Short>
    requires kept { HasBuffer spot.marks.now.name buffers.now }
    requires place { spot.at ≡ position_or_len (marked_named spot.marks.now.name) buffers.now }
    requires within { PieceWithin (length (marked_at spot.marks.now.name buffers.now).buffer.text) piece.now }
    ensures ok { IfOk result (λ made. kill_set made kill.new ≡ killed_in spot.entry.marks.now.name buffers.now kill.old piece.now) }
    ensures held { OnOk result (take (length kill.old) kill.new ≡ kill.old) }
    ensures err { OnErr result (kill.new ≡ kill.old) }
    ensures may { OnErr result (kill_takes_memory (kill_read (marked_at spot.entry.marks.now.name buffers.now).buffer.text kill.old piece.now) ≡ true) }
{
    let Some(piece) = piece else {
        return Ok(None);
    };
    let text = buffers.text_at(&spot.marks.name, spot.at);
    let mut chars = text.copy(piece.from, piece.to)?;
    match piece.joins {
        Joins::New => Ok(Some(chars)),
        Joins::Behind => match kill.extend(&chars) {
            Ok(()) => Ok(None),
            Err(short) => Err(short),
        },
        Joins::InFront => match chars.extend_from_slice(kill.as_slice()) {
            Ok(()) => Ok(Some(chars)),
            Err(_) => Err(Short),
        },
    }
}

/// Edits a buffer, where the change takes out or puts in anything, and tells where what is put in ends. `Short`: memory was
/// refused, and nothing was done.
fn edit<T: Marked + Drop>(
    buffers: &mut Buffers<T>,
    writer: Writer<'_>,
    kill: &[char],
    mask: Mask,
    change: &Change,
) -> Result<usize, Short>
    requires writes { writes mask ≡ true }
    requires granted { IsGranted writer.directory.now buffers.old writer.user.now writer.name.now mask }
    requires kept { HasBuffer writer.name.now buffers.old }
    requires place { writer.at ≡ position_or_len (marked_named writer.name.now) buffers.old }
    requires within { ChangeWithin (marked_at writer.name.now buffers.old).buffer.text kill.now change.now }
    requires room { HasRoom writer.name.now buffers.old (change_in writer.name.now buffers.old kill.now change.now) }
    ensures ok { OnOk result (buffers.new ≡ edited_by writer.entry.name.now (change_in writer.entry.name.now buffers.old kill.now change.now) buffers.old) }
    ensures end { IfOk result (λ end. end ≡ end_in writer.entry.name.now buffers.old kill.now change.now) }
    ensures err { OnErr result (buffers.new ≡ buffers.old) }
    ensures may { OnErr result (IsEdit (change_in writer.entry.name.now buffers.old kill.now change.now)) }
{
    if !is_edit(change, kill.len()) {
        return Ok(change.from);
    }
    let from = change.from;
    let to = change.to;
    // One character is the common case, and takes no room beside the text's.
    if let Put::Character { put, times: 1 } = change.put {
        buffers.edit_at(writer, mask, from, to, &[put])?;
        return Ok(from + 1);
    }
    let chars = put_chars(
        buffers.alloc(),
        buffers.text_at(writer.name, writer.at),
        kill,
        &change.put,
    )?;
    buffers.edit_at(writer, mask, from, to, &chars)?;
    Ok(from + chars.len())
}

/// What the edit of a serial took out, or nothing where it is not kept. `Short`: memory was refused.
fn removed_by<T: Marked + Drop>(
    buffers: &Buffers<T>,
    name: &Name,
    at: usize,
    serial: u64,
) -> Result<Vec<char>, Short>
    requires kept { HasBuffer name.now buffers.now }
    requires place { at ≡ position_or_len (marked_named name.now) buffers.now }
    ensures { IfOk result (λ v. v.items ≡ removed_by serial (marked_at name.now buffers.now).buffer.items) }
{
    let mut chars = Vec::new(buffers.alloc());
    let Some(edit) = buffers.item_at(name, at, serial) else {
        return Ok(chars);
    };
    match chars.extend_from_slice(&edit.removed) {
        Ok(()) => Ok(chars),
        Err(_) => Err(Short),
    }
}

/// Takes an edit back, where that takes out or puts in anything, and tells where what comes back ends. `Short`: memory was
/// refused, and nothing was done.
fn restore<T: Marked + Drop>(
    buffers: &mut Buffers<T>,
    writer: Writer<'_>,
    undone: &Undone,
) -> Result<usize, Short>
    requires kept { HasBuffer writer.name.now buffers.old }
    requires place { writer.at ≡ position_or_len (marked_named writer.name.now) buffers.old }
    requires granted { IsGranted writer.directory.now buffers.old writer.user.now writer.name.now 3 }
    requires can { CanComeBack writer.name.now buffers.old undone.now }
    ensures ok { (kill : List ℕ) → OnOk result (buffers.new ≡ buffers_undone writer.entry.name.now buffers.old kill undone.now) }
    ensures end { IfOk result (λ end. end ≡ undone.now.from + length (back_in writer.entry.name.now buffers.old undone.now)) }
    ensures err { OnErr result (buffers.new ≡ buffers.old) }
    ensures may { OnErr result (IsEdit (undone_in writer.entry.name.now buffers.old [] undone.now)) }
{
    if !is_undo_an_edit(undone) {
        return Ok(undone.from);
    }
    prove!(buffers.is_within_limit(writer.name));
    let back = removed_by(buffers, writer.name, writer.at, undone.serial)?;
    let from = undone.from;
    let to = from + undone.gone;
    let mask = Mask::from_bits(Right::ReadData.bit() + Right::WriteData.bit());
    buffers.edit_at(writer, mask, from, to, &back)?;
    Ok(from + back.len())
}

/// The point of a window, and where it goes. What was put in ends at `behind`.
fn point_target(window_marks: &WindowMarks, goes: &Goes, behind: usize) -> Option<(MarkId, usize)>
    ensures value { IsTarget window_marks.now.point (point_read behind goes.now) result }
    ensures stands { PointCanStand window_marks.now.point goes.now behind result }
{
    match *goes {
        Goes::Stays => None,
        Goes::To(position) => Some((window_marks.point, position)),
        Goes::Behind => Some((window_marks.point, behind)),
    }
}

/// The top of a window, and where it goes.
fn top_target(window_marks: &WindowMarks, top: &Option<usize>) -> Option<(MarkId, usize)>
    ensures value { IsTarget window_marks.now.top (top_read top.now) result }
    ensures stands { TopCanStand window_marks.now.top top.now result }
{
    match *top {
        None => None,
        Some(position) => Some((window_marks.top, position)),
    }
}

/// Leaves what a command is to leave.
pub fn leave<T: Marked + Drop>(
    buffers: &mut Buffers<T>,
    session: &mut Session,
    spot: Spot<'_>,
    left: &Finish,
    behind: usize,
    kill: Option<Vec<char>>,
)
    requires marks { AreMarks buffers.old spot.marks.now }
    requires place { spot.at ≡ position_or_len (marked_named spot.marks.now.name) buffers.old }
    requires point { GoesWithin (length (marked_at spot.marks.now.name buffers.old).buffer.text) left.now.point }
    requires top { IsWithin (length (marked_at spot.marks.now.name buffers.old).buffer.text) left.now.top }
    requires behind { behind ≤ length (marked_at spot.marks.now.name buffers.old).buffer.text }
    ensures marks { buffers.new ≡ marks_left spot.entry.marks.now left.now behind buffers.old }
    ensures session { session.new ≡ told left.now.told (acted left.now.kind (record session.old { kill = kill_set kill session.old.kill })) }
{
    let point = point_target(spot.marks, &left.point, behind);
    let top = top_target(spot.marks, &left.top);
    buffers.place_both_at(&spot.marks.name, spot.at, point, top);
    finish(session, left.kind, left.told);
    match kill {
        None => {}
        Some(text) => set_kill(session, text),
    }
}

/// A change is done. `Short`: memory was refused, and nothing was done.
fn change_text<T: Marked + Drop>(
    buffers: &mut Buffers<T>,
    directory: &Directory,
    session: &mut Session,
    spot: Spot<'_>,
    mask: Mask,
    change: &Change,
) -> Result<(), Short>
    requires marks { AreMarks buffers.old spot.marks.now }
    requires place { spot.at ≡ position_or_len (marked_named spot.marks.now.name) buffers.old }
    requires can { CanBeDone buffers.old spot.marks.now session.old.kill (Edits mask change.now) }
    requires granted { IsActionGranted directory.now buffers.old session.old.user spot.marks.now.name (Edits mask change.now) }
    ensures ok { OnOk result (buffers.new ≡ buffers_acted spot.entry.marks.now session.old.kill (Edits mask change.now) buffers.old) }
    ensures acted { OnOk result (session.new ≡ acted_in spot.entry.marks.now buffers.old (Edits mask change.now) session.old) }
    ensures err { OnErr result (buffers.new ≡ buffers.old) }
    ensures same { OnErr result (session.new ≡ session.old) }
    ensures may { OnErr result (MayBeShort spot.entry.marks.now buffers.old session.old.kill (Edits mask change.now)) }
{
    let held = session.kill.as_slice().len();
    let made = killed_if(buffers, spot, &mut session.kill, &change.finish.kill)?;
    // What the edit puts in is of the kill buffer as it was.
    let kill = &session.kill.as_slice()[..held];
    let writer = Writer {
        directory,
        user: &session.user,
        name: &spot.marks.name,
        at: spot.at,
    };
    match edit(buffers, writer, kill, mask, change) {
        Ok(behind) => {
            leave(buffers, session, spot, &change.finish, behind, made);
            Ok(())
        }
        Err(short) => {
            session.kill.truncate(held);
            Err(short)
        }
    }
}

/// An undo is done. `Short`: memory was refused, and nothing was done.
fn take_back<T: Marked + Drop>(
    buffers: &mut Buffers<T>,
    directory: &Directory,
    session: &mut Session,
    spot: Spot<'_>,
    undone: &Undone,
) -> Result<(), Short>
    requires marks { AreMarks buffers.old spot.marks.now }
    requires place { spot.at ≡ position_or_len (marked_named spot.marks.now.name) buffers.old }
    requires can { CanBeDone buffers.old spot.marks.now session.old.kill (Undoes undone.now) }
    requires granted { IsActionGranted directory.now buffers.old session.old.user spot.marks.now.name (Undoes undone.now) }
    ensures ok { OnOk result (buffers.new ≡ buffers_acted spot.entry.marks.now session.old.kill (Undoes undone.now) buffers.old) }
    ensures acted { OnOk result (session.new ≡ acted_in spot.entry.marks.now buffers.old (Undoes undone.now) session.old) }
    ensures err { OnErr result (buffers.new ≡ buffers.old) }
    ensures same { OnErr result (session.new ≡ session.old) }
    ensures may { OnErr result (MayBeShort spot.entry.marks.now buffers.old session.old.kill (Undoes undone.now)) }
{
    let writer = Writer {
        directory,
        user: &session.user,
        name: &spot.marks.name,
        at: spot.at,
    };
    let behind = restore(buffers, writer, undone)?;
    leave(buffers, session, spot, &undone.finish, behind, None);
    Ok(())
}

/// Does what was planned: in the buffers, and to the acting session. `Short`: memory was refused, and nothing was done.
fn carry_out<T: Marked + Drop>(
    buffers: &mut Buffers<T>,
    directory: &Directory,
    session: &mut Session,
    spot: Spot<'_>,
    action: &Action,
) -> Result<(), Short>
    requires marks { AreMarks buffers.old spot.marks.now }
    requires place { spot.at ≡ position_or_len (marked_named spot.marks.now.name) buffers.old }
    requires can { CanBeDone buffers.old spot.marks.now session.old.kill action.now }
    requires granted { IsActionGranted directory.now buffers.old session.old.user spot.marks.now.name action.now }
    ensures ok { OnOk result (buffers.new ≡ buffers_acted spot.entry.marks.now session.old.kill action.now buffers.old) }
    ensures acted { OnOk result (session.new ≡ acted_in spot.entry.marks.now buffers.old action.now session.old) }
    ensures err { OnErr result (buffers.new ≡ buffers.old) }
    ensures same { OnErr result (session.new ≡ session.old) }
    ensures may { OnErr result (MayBeShort spot.entry.marks.now buffers.old session.old.kill action.now) }
{
    match action {
        Action::Fails(message) => {
            fail(session, *message);
            Ok(())
        }
        Action::Edits(mask, change) => {
            change_text(buffers, directory, session, spot, *mask, change)
        }
        Action::Undoes(undone) => take_back(buffers, directory, session, spot, undone),
        Action::Moves(left) => {
            let made = killed_if(buffers, spot, &mut session.kill, &left.kill)?;
            leave(buffers, session, spot, left, 0, made);
            Ok(())
        }
        Action::Clears => {
            buffers.unmodify_at(directory, &session.user, &spot.marks.name, spot.at);
            finish(session, Kind::Other, Message::Says(Notice::Silent));
            Ok(())
        }
    }
}

/// Where an action sets the mark, if it does.
fn mark_of(action: &Action) -> Option<usize>
    ensures { result ≡ mark_told action.now }
{
    match action {
        Action::Fails(_) | Action::Undoes(_) | Action::Clears => None,
        Action::Edits(_, change) => change.finish.mark,
        Action::Moves(left) => left.mark,
    }
}

/// Does what was planned, and sets the mark where the action does. `Short`: memory was refused, and nothing was done.
fn carry_out_marked<T: Marked + Drop>(
    buffers: &mut Buffers<T>,
    directory: &Directory,
    session: &mut Session,
    spot: Spot<'_>,
    action: &Action,
) -> Result<(), Short>
    requires marks { AreMarks buffers.old spot.marks.now }
    requires place { spot.at ≡ position_or_len (marked_named spot.marks.now.name) buffers.old }
    requires can { CanBeDone buffers.old spot.marks.now session.old.kill action.now }
    requires granted { IsActionGranted directory.now buffers.old session.old.user spot.marks.now.name action.now }
    ensures ok { OnOk result (IsCarriedOut spot.entry.marks.now action.now buffers.old buffers.new session.old session.new) }
    ensures err { OnErr result (WindowMarksDropped None buffers.old buffers.new) }
    ensures same { OnErr result (session.new ≡ session.old) }
    ensures may { OnErr result (MayBeShort spot.entry.marks.now buffers.old session.old.kill action.now) }
{
    let position = match mark_of(action) {
        None => return carry_out(buffers, directory, session, spot, action),
        Some(position) => position,
    };
    let mark = reserve_mark(buffers, spot.marks)?;
    match carry_out(buffers, directory, session, spot, action) {
        Ok(()) => {
            set_mark(buffers, session, spot.marks, spot.at, mark, position);
            Ok(())
        }
        Err(short) => {
            give_up_mark(buffers, spot.marks, mark);
            Err(short)
        }
    }
}

/// What an action through a window's marks touches, by a session whose kill buffer has `killed` characters.
fn touched_by(window_marks: &WindowMarks, action: &Action, killed: usize) -> Touched
    ensures { IsTouched window_marks.now action.now killed result }
{
    match action {
        Action::Edits(_, change) => {
            if is_edit(change, killed) {
                Touched::In(window_marks.name)
            } else {
                Touched::Nowhere
            }
        }
        Action::Undoes(undone) => {
            if is_undo_an_edit(undone) {
                Touched::In(window_marks.name)
            } else {
                Touched::Nowhere
            }
        }
        Action::Clears => Touched::In(window_marks.name),
        Action::Fails(_) | Action::Moves(_) => Touched::Nowhere,
    }
}

/// Does what was planned, for the session at `at`, and tells what it touched. The positions of all searches go by it. `Short`:
/// memory was refused, and nothing was done.
pub fn perform<T: Marked + Drop>(
    buffers: &mut Buffers<T>,
    directory: &Directory,
    sessions: &mut [Session],
    at: usize,
    spot: Spot<'_>,
    action: &Action,
) -> Result<Touched, Short>
    requires { IsReady directory.now at buffers.old sessions.old (Acts spot.marks.now spot.at action.now) }
    ensures sound { IsSound buffers.new sessions.new }
    ensures done { IfOk result (IsQuietlyDone directory.now at (acts_at spot.entry action.now) buffers.old sessions.old buffers.new sessions.new) }
    ensures err { OnErr result (IsUnchanged buffers.old sessions.old buffers.new sessions.new) }
    ensures may { OnErr result (TakesMemory at (acts_at spot.entry action.now) buffers.old sessions.old) }
{
    let name = &spot.marks.name;
    let kill = sessions[at].kill.as_slice();
    let touched = touched_by(spot.marks, action, kill.len());
    let edit = edit_of(buffers, name, spot.at, kill, action);
    carry_out_marked(buffers, directory, &mut sessions[at], spot, action)?;
    follow(sessions, name, &edit);
    Ok(touched)
}
