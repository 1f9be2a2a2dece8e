// What a command on a text comes to: whether it is permitted, and what its family plans.
ghost use Rattle.std.specs.Prelude.{◌≡◌, ◌≤◌, ◌+◌, ℕ, List, length, None, Ok, IfOk, IfSome, true};
ghost use Rattle.mgs_model.specs.declared.entry.Decision.TheVariants.{Granted};
ghost use Rattle.mgs_model.specs.World.{Item};
ghost use Rattle.mgs_undo.specs.Numbered.{item_of};
ghost use Rattle.mgs_buffers.specs.Changing.{writes};
ghost use Rattle.mgs_buffers.specs.MarkedBuffer.{marked_at};
ghost use Rattle.mgs_edit.specs.Reading.{ChangeWithin, FinishWithin, IsWithin};
ghost use Rattle.mgs_plan.specs.Actions.{AreMarks, CanDo, CanDoIn, CanTakeBack, CanUndoSo, IsAroundReading, around_found, insertion_mask, is_on_text, mark_shown, marks_in, mask_at, reading_mask_at};
ghost use Rattle.mgs_plan.specs.Actions.{IsActionFor, IsDoneBy, IsEditOf, IsGrantedIn, IsMotionOf, IsTakenBack, IsUndoIn, IsUndoneSo};
ghost use Rattle.mgs_plan.specs.Deciding.{IsActionGranted, Refuses};

use crate::action::Action;
use crate::actor::Actor;
use crate::given::Given;
use mgs_buffers::Found;
use mgs_edit::{
    Around, Change, Finish, Undone, alteration, insertion, is_edit, is_kill_too_large, is_too_long,
    is_undo_an_edit, is_undo_too_long, motion, reading_insertion, scroll, undo, undo_target,
};
use mgs_marks::Marked;
use mgs_model::{Command, Decision, Kind, Mask, Message, Name, Notice, Right};
use mgs_text::Text;
use mgs_undo::Edit;
use mgs_windows::WindowMarks;

/// Where the window's mark stands.
fn mark<T: Marked + Drop>(found: &Found<T>, window_marks: &WindowMarks) -> Option<usize>
    requires { AreMarks found.now.all (marks_in found.now.name window_marks.now) }
    ensures value { result ≡ mark_shown found.now.all (marks_in found.now.name window_marks.now) }
    ensures within { IsWithin (length (marked_at found.now.name found.now.all).buffer.text) result }
{
    match window_marks.mark {
        Some(mark) => Some(found.pos(mark)),
        None => None,
    }
}

/// What a planner is given where the user may read the text.
fn around_reading<T: Marked + Drop>(
    found: &Found<T>,
    window_marks: &WindowMarks,
    given: &Given,
    killed: usize,
) -> Around
    requires { AreMarks found.now.all (marks_in found.now.name window_marks.now) }
    ensures value { IsAroundReading found.now.all (marks_in found.now.name window_marks.now) given.now killed result }
    ensures killed { result.killed ≡ killed }
    ensures place { result.place ≤ length (marked_at found.now.name found.now.all).buffer.text }
    ensures mark { IsWithin (length (marked_at found.now.name found.now.all).buffer.text) result.mark }
{
    Around {
        place: found.pos(window_marks.point),
        mark: mark(found, window_marks),
        argument: given.argument,
        killed,
        kind: given.kind,
        height: given.height,
        fill: given.fill,
    }
}

/// What a planner is given. A user who may not read the text acts at its end, and has no mark.
fn around<T: Marked + Drop>(
    found: &Found<T>,
    actor: &Actor<'_>,
    window_marks: &WindowMarks,
    given: &Given,
    killed: usize,
) -> Around
    requires { AreMarks found.now.all (marks_in found.now.name window_marks.now) }
    ensures value { result ≡ around_found actor.now.directory.now found.now actor.now.user.now window_marks.now given.now killed }
    ensures place { result.place ≤ length (marked_at found.now.name found.now.all).buffer.text }
    ensures mark { IsWithin (length (marked_at found.now.name found.now.all).buffer.text) result.mark }
{
    if found.grants(actor.directory, actor.user, Right::ReadData) {
        return around_reading(found, window_marks, given, killed);
    }
    Around {
        place: found.text_len(),
        mark: None,
        argument: given.argument,
        killed,
        kind: given.kind,
        height: given.height,
        fill: given.fill,
    }
}

/// The right that an insertion needs: at the text's end it appends, elsewhere it writes.
pub fn insertion_mask(place: usize, size: usize) -> Mask
    ensures value { result ≡ insertion_mask place size }
    ensures small { result ≤ 4 }
{
    if place == size {
        Mask::of(Right::AppendData)
    } else {
        Mask::of(Right::WriteData)
    }
}

/// The rights that a command needs at a place of a text of `size` characters.
fn needs(command: &Command, place: usize, size: usize) -> Mask
    ensures { result ≡ mask_at command.now place size }
{
    let read = Right::ReadData.bit();
    match *command {
        Command::Insert(_) => insertion_mask(place, size),
        Command::InsertReading(_) => Mask::from_bits(read + insertion_mask(place, size).bits()),
        Command::Alter(_) | Command::UndoEdit | Command::NotModified => {
            Mask::from_bits(read + Right::WriteData.bit())
        }
        _ => Mask::from_bits(read),
    }
}

/// These rights, and the one to read.
fn needs_reading(command: &Command, place: usize, size: usize) -> Mask
    ensures { result ≡ reading_mask_at command.now place size }
{
    match *command {
        Command::Insert(_) => {
            let read = Right::ReadData.bit();
            Mask::from_bits(read + insertion_mask(place, size).bits())
        }
        _ => needs(command, place, size),
    }
}

/// What a plan of an edit comes to, where the text has the buffer's last serial.
fn edits<T: Text>(
    text: &T,
    serial: u64,
    kill: &[char],
    mask: Mask,
    planned: Result<Change, Message>,
) -> Action
    requires within { IfOk planned (ChangeWithin (T.text text.now) kill.now) }
    requires writes { writes mask ≡ true }
    ensures value { IsEditOf (T.text text.now) serial kill.now planned result }
    ensures can { (items : List Item) → CanDo (T.text text.now) items kill.now serial result }
    ensures by { IsDoneBy mask result }
{
    match planned {
        Err(message) => Action::Fails(message),
        Ok(change) => edits_so(text, serial, kill, mask, change),
    }
}

/// The same, of a change.
fn edits_so<T: Text>(text: &T, serial: u64, kill: &[char], mask: Mask, change: Change) -> Action
    requires within { ChangeWithin (T.text text.now) kill.now change }
    requires writes { writes mask ≡ true }
    ensures value { IsEditOf (T.text text.now) serial kill.now (Ok change) result }
    ensures can { (items : List Item) → CanDo (T.text text.now) items kill.now serial result }
    ensures by { IsDoneBy mask result }
{
    let killed = kill.len();
    if is_edit(&change, killed)
        && (is_too_long(text.len(), &change, killed) || serial == u64::MAX)
    {
        return Action::Fails(Message::Says(Notice::BufferFull));
    }
    if is_kill_too_large(&change.finish, killed) {
        return Action::Fails(Message::Says(Notice::KillTooLarge));
    }
    Action::Edits(mask, change)
}

/// What a plan of a motion comes to.
fn moves<T: Text>(text: &T, kill: &[char], planned: Result<Finish, Message>) -> Action
    requires { IfOk planned (FinishWithin (length (T.text text.now)) (length (T.text text.now))) }
    ensures value { IsMotionOf (T.text text.now) kill.now planned result }
    ensures can { (items : List Item) (serial : ℕ) → CanDo (T.text text.now) items kill.now serial result }
    ensures by { (mask : ℕ) → IsDoneBy mask result }
{
    match planned {
        Err(message) => Action::Fails(message),
        Ok(finish) => {
            if is_kill_too_large(&finish, kill.len()) {
                return Action::Fails(Message::Says(Notice::KillTooLarge));
            }
            Action::Moves(finish)
        }
    }
}

/// What taking an edit back comes to, where the text has the buffer's last serial.
fn undoes_so<T: Text>(text: &T, serial: u64, undone: Undone) -> Action
    requires within { undone.from + undone.gone ≤ length (T.text text.now) }
    ensures value { IsUndoneSo (T.text text.now) serial undone result }
    ensures can { CanUndoSo (T.text text.now) serial undone result }
    ensures by { IsDoneBy 3 result }
{
    if is_undo_an_edit(&undone) && (is_undo_too_long(text.len(), &undone) || serial == u64::MAX) {
        return Action::Fails(Message::Says(Notice::BufferFull));
    }
    Action::Undoes(undone)
}

/// The same, of an edit that the buffer keeps under the serial `target`.
fn takes_back<T: Text>(text: &T, serial: u64, name: &Name, target: u64, edit: &Edit) -> Action
    ensures value { IsTakenBack (T.text text.now) serial name.now target (item_of target edit.now) result }
    ensures can { CanTakeBack (T.text text.now) serial target (item_of target edit.now) result }
    ensures by { IsDoneBy 3 result }
{
    if serial == u64::MAX {
        return Action::Fails(Message::Says(Notice::BufferFull));
    }
    undoes_so(text, serial, undo(edit, name, target, serial, text.len()))
}

/// What an undo comes to: in a run of undos the edit before the last one undone is taken back, and elsewhere the last edit.
fn undoes<T: Marked + Drop>(found: &Found<T>, kind: Kind) -> Action
    ensures value { IsUndoIn found.now.all found.now.name kind result }
    ensures can { (kill : List ℕ) → CanDoIn found.now.all found.now.name kill result }
    ensures by { IsDoneBy 3 result }
{
    let name = found.name();
    let serial = found.serial();
    let target = undo_target(kind, name, serial);
    match found.item(target) {
        None => Action::Fails(Message::Says(Notice::NoFurtherUndo)),
        Some(edit) => takes_back(found.text(), serial, name, target, edit),
    }
}

/// What a command plans where its rights are granted.
fn plan_granted<T: Marked + Drop>(
    found: &Found<T>,
    kill: &[char],
    around: &Around,
    mask: Mask,
    command: Command,
) -> Action
    requires place { around.now.place ≤ length (marked_at found.now.name found.now.all).buffer.text }
    requires mark { IsWithin (length (marked_at found.now.name found.now.all).buffer.text) around.now.mark }
    requires killed { length kill.now ≡ around.now.killed }
    requires here { is_on_text command ≡ true }
    requires mask { mask ≡ mask_at command around.now.place (length (marked_at found.now.name found.now.all).buffer.text) }
    ensures value { IsGrantedIn found.now.all found.now.name kill.now around.now command result }
    ensures can { CanDoIn found.now.all found.now.name kill.now result }
    ensures by { IsDoneBy mask result }
{
    let text = found.text();
    let serial = found.serial();
    let size = found.text_len();
    match command {
        Command::Insert(by) => edits(text, serial, kill, mask, insertion(size, around, by)),
        Command::InsertReading(by) => {
            edits_so(
                text,
                serial,
                kill,
                mask,
                reading_insertion(text, around, by),
            )
        }
        Command::Move(by) => moves(text, kill, motion(text, around, by)),
        Command::Alter(by) => edits(text, serial, kill, mask, alteration(text, around, by)),
        Command::Scroll(by) => moves(text, kill, scroll(text, around, by)),
        Command::UndoEdit => undoes(found, around.kind),
        Command::NotModified => Action::Clears,
        // No other command acts on the text yet.
        _ => Action::Fails(Message::Says(Notice::KeyNotBound)),
    }
}

/// What is told where rights are not granted.
pub fn denial(decision: Decision) -> Option<Message>
    ensures denied { IfSome result (Refuses decision) }
    ensures granted { result ≡ None → decision ≡ Granted }
{
    match decision {
        Decision::Granted => None,
        Decision::DeniedBy { .. } | Decision::NotGranted { .. } => Some(Message::Denied(decision)),
    }
}

/// What a command on a text comes to where one walk over the access list grants the user to read, and all that the command needs.
fn plan_outright<T: Marked + Drop>(
    found: &Found<T>,
    actor: &Actor<'_>,
    window_marks: &WindowMarks,
    given: &Given,
    kill: &[char],
    command: Command,
) -> Option<Action>
    requires marks { AreMarks found.now.all (marks_in found.now.name window_marks.now) }
    requires here { is_on_text command ≡ true }
    ensures value { IfSome result (IsActionFor actor.now.directory.now found.now actor.now.user.now window_marks.now given.now kill.now command) }
    ensures can { IfSome result (CanDoIn found.now.all found.now.name kill.now) }
    ensures granted { IfSome result (IsActionGranted actor.now.directory.now found.now.all actor.now.user.now found.now.name) }
{
    let size = found.text_len();
    let around = around_reading(found, window_marks, given, kill.len());
    let all = needs_reading(&command, around.place, size);
    match denial(found.decide_all(actor.directory, actor.user, all)) {
        Some(_) => None,
        None => {
            let mask = needs(&command, around.place, size);
            Some(plan_granted(found, kill, &around, mask, command))
        }
    }
}

/// What a command on a text comes to through a window's marks, by a user whose session has this kill buffer: whether he may read is
/// decided first, and then what the command needs.
fn plan_judged<T: Marked + Drop>(
    found: &Found<T>,
    actor: &Actor<'_>,
    window_marks: &WindowMarks,
    given: &Given,
    kill: &[char],
    command: Command,
) -> Action
    requires marks { AreMarks found.now.all (marks_in found.now.name window_marks.now) }
    requires here { is_on_text command ≡ true }
    ensures value { IsActionFor actor.now.directory.now found.now actor.now.user.now window_marks.now given.now kill.now command result }
    ensures can { CanDoIn found.now.all found.now.name kill.now result }
    ensures granted { IsActionGranted actor.now.directory.now found.now.all actor.now.user.now found.now.name result }
{
    let size = found.text_len();
    let around = around(found, actor, window_marks, given, kill.len());
    let mask = needs(&command, around.place, size);
    match denial(found.decide_all(actor.directory, actor.user, mask)) {
        Some(message) => Action::Fails(message),
        None => plan_granted(found, kill, &around, mask, command),
    }
}

/// What a command on a text comes to through a window's marks, by a user whose session has this kill buffer.
pub(crate) fn plan<T: Marked + Drop>(
    found: &Found<T>,
    actor: &Actor<'_>,
    window_marks: &WindowMarks,
    given: &Given,
    kill: &[char],
    command: Command,
) -> Action
    requires marks { AreMarks found.now.all (marks_in found.now.name window_marks.now) }
    requires here { is_on_text command ≡ true }
    ensures value { IsActionFor actor.now.directory.now found.now actor.now.user.now window_marks.now given.now kill.now command result }
    ensures can { CanDoIn found.now.all found.now.name kill.now result }
    ensures granted { IsActionGranted actor.now.directory.now found.now.all actor.now.user.now found.now.name result }
{
    match plan_outright(found, actor, window_marks, given, kill, command) {
        Some(action) => action,
        None => plan_judged(found, actor, window_marks, given, kill, command),
    }
}
