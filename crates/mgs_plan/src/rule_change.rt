// What a change of the rules of a buffer comes to: of its owner, its owning group, or an entry of its access list.
ghost use Rattle.std.specs.Prelude.{◌≡◌, ◌<◌, ◌-◌, ℕ, List as Items, length, None, IfSome, true, false};
ghost use Rattle.mgs_model.specs.Acts.{list_set};
ghost use Rattle.mgs_model.specs.Outcome.{Run};
ghost use Rattle.mgs_model.specs.Plans.{count_of, entries_changed, entry_inserted, entry_replaced, has_entry, new_number};
ghost use Rattle.mgs_model.specs.Rights.{bit_of};
ghost use Rattle.mgs_model.specs.Access.{Directory};
ghost use Rattle.mgs_model.specs.declared.session.EntryChange.TheVariants.{DeleteEntry};
ghost use Rattle.mgs_buffers.specs.MarkedBuffer.{HasBuffer, MarkedBuffer, marked_at};
ghost use Rattle.mgs_session.specs.declared.Session as code;
ghost use Rattle.mgs_plan.specs.Deciding.{CanPerform, CanRule, CanWhereGranted, IsPlanned, IsRuled};
ghost use Rattle.mgs_plan.specs.Listed.{entries_planned};
ghost use Rattle.mgs_plan.specs.Ruling.{command_of, group_plan, owner_plan, ruling_mask, ruling_plan};

use crate::judgement::judged;
use crate::outcome::{EntryPlan, Outcome};
use crate::subject::subject_in;
use mgs_acl::{List, ListFault, entry_typed};
use mgs_buffers::Buffers;
use mgs_marks::Marked;
use mgs_model::{Entry, EntryChange, Message, Name, NewOwner, Notice, Right};
use mgs_policy::Directory;
use mgs_session::Session;

/// A command on the rules of the buffer whose text or access list the selected window shows.
#[derive(Clone, Copy)]
pub enum Ruling {
    /// Another user is to own it.
    Owner,
    /// Another group is to own it, or none.
    Group,
    /// An entry of its access list is to change.
    Entries(EntryChange),
}

/// The right that it needs.
fn right_for(ruling: Ruling) -> Right
    ensures { bit_of result ≡ ruling_mask ruling }
{
    match ruling {
        Ruling::Owner | Ruling::Group => Right::WriteOwner,
        Ruling::Entries(_) => Right::WriteAcl,
    }
}

/// The buffer gets the owner whose name was typed, where that is a user.
fn owner_ruled(directory: &Directory, name: Name, typed: &[char]) -> Outcome
    ensures value { (ks : Items MarkedBuffer) → IsRuled ks (owner_plan directory.now name typed.now) result }
    ensures can { (ks : Items MarkedBuffer) (h : code.Session) → CanRule directory.now ks h.user name 524288 → CanPerform directory.now ks h result }
{
    match directory.user_typed(typed) {
        Some(owner) => Outcome::SetsOwners(name, NewOwner::ToUser(owner)),
        None => Outcome::Fails(Message::Says(Notice::NoSuchUser)),
    }
}

/// The buffer gets the owning group whose name was typed, where that is a group of the directory, or none, where nothing was typed.
fn group_ruled(directory: &Directory, name: Name, typed: &[char]) -> Outcome
    ensures value { (ks : Items MarkedBuffer) → IsRuled ks (group_plan directory.now name typed.now) result }
    ensures can { (ks : Items MarkedBuffer) (h : code.Session) → CanRule directory.now ks h.user name 524288 → CanPerform directory.now ks h result }
{
    if typed.is_empty() {
        return Outcome::SetsOwners(name, NewOwner::ToGroup(None));
    }
    match directory.group_typed(typed) {
        Some(group) => Outcome::SetsOwners(name, NewOwner::ToGroup(Some(group))),
        None => Outcome::Fails(Message::Says(Notice::NoSuchGroup)),
    }
}

/// The list with an entry more, before the one of a number.
fn inserted(list: List, number: usize, entry: Entry) -> Result<List, Message>
    ensures { result ≡ entry_inserted list number entry }
{
    let mut list = list;
    if number == 0 {
        return Err(Message::Says(Notice::NoSuchEntry));
    }
    match list.insert(number - 1, entry) {
        Ok(()) => Ok(list),
        Err(ListFault::NoSuchEntry) => Err(Message::Says(Notice::NoSuchEntry)),
        Err(ListFault::Full) => Err(Message::Says(Notice::ListFull)),
    }
}

/// The index of the entry that an argument means: without one, that of the first.
fn entry_index(list: &List, argument: Option<usize>) -> Option<usize>
    ensures there { IfSome result (λ i. has_entry list.now argument ≡ true) }
    ensures index { IfSome result (λ i. i ≡ count_of argument - 1) }
    ensures within { IfSome result (λ i. i < length list.now) }
    ensures none { result ≡ None → has_entry list.now argument ≡ false }
{
    let number = match argument {
        Some(number) => number,
        None => 1,
    };
    if number == 0 || number > list.len() {
        return None;
    }
    Some(number - 1)
}

/// The list without the entry of a number.
fn deleted(list: List, argument: Option<usize>) -> Result<List, Message>
    ensures { (typed : Items ℕ) → result ≡ entries_changed DeleteEntry list argument typed }
{
    let mut list = list;
    let Some(index) = entry_index(&list, argument) else {
        return Err(Message::Says(Notice::NoSuchEntry));
    };
    match list.delete(index) {
        Ok(()) => Ok(list),
        Err(_) => Err(Message::Says(Notice::NoSuchEntry)),
    }
}

/// The list with another entry in the place of that of a number.
fn replaced(list: List, argument: Option<usize>, entry: Entry) -> Result<List, Message>
    ensures { result ≡ entry_replaced list argument entry }
{
    let mut list = list;
    let Some(index) = entry_index(&list, argument) else {
        return Err(Message::Says(Notice::NoSuchEntry));
    };
    match list.replace(index, entry) {
        Ok(()) => Ok(list),
        Err(_) => Err(Message::Says(Notice::NoSuchEntry)),
    }
}

/// The number that a new entry gets: without an argument it is the last.
fn new_number(list: &List, argument: Option<usize>) -> usize
    ensures { result ≡ new_number list.now argument }
{
    match argument {
        Some(number) => number,
        None => list.len() + 1,
    }
}

/// The list once it is changed.
pub fn changed(list: List, plan: &EntryPlan) -> Result<List, Message>
    ensures { result ≡ entries_planned plan.now list }
{
    match *plan {
        EntryPlan::Insert(argument, entry) => {
            let number = new_number(&list, argument);
            inserted(list, number, entry)
        }
        EntryPlan::Delete(argument) => deleted(list, argument),
        EntryPlan::Replace(argument, entry) => replaced(list, argument, entry),
    }
}

/// The list of the buffer is to change, where it can.
fn sets_list<T: Marked + Drop>(buffers: &Buffers<T>, name: Name, plan: EntryPlan) -> Outcome
    requires { HasBuffer name buffers.now }
    ensures value { IsRuled buffers.now (list_set name (entries_planned plan (marked_at name buffers.now).buffer.entries)) result }
    ensures can { (directory : Directory) → CanWhereGranted directory buffers.now name 262144 result }
{
    match changed(buffers.copy_list(&name), &plan) {
        Ok(_) => Outcome::SetsList(name, plan),
        Err(message) => Outcome::Fails(message),
    }
}

/// An entry of the list of the buffer is to change. What was typed is judged first.
fn entries_ruled<T: Marked + Drop>(
    buffers: &Buffers<T>,
    name: Name,
    change: EntryChange,
    argument: Option<usize>,
    typed: &[char],
) -> Outcome
    requires { HasBuffer name buffers.now }
    ensures value { IsRuled buffers.now (list_set name (entries_changed change (marked_at name buffers.now).buffer.entries argument typed.now)) result }
    ensures can { (directory : Directory) → CanWhereGranted directory buffers.now name 262144 result }
{
    if let EntryChange::DeleteEntry = change {
        return sets_list(buffers, name, EntryPlan::Delete(argument));
    }
    let entry = match entry_typed(typed) {
        Ok(entry) => entry,
        Err(fault) => return Outcome::Fails(Message::BadEntry(fault)),
    };
    match change {
        EntryChange::InsertEntry => sets_list(buffers, name, EntryPlan::Insert(argument, entry)),
        _ => sets_list(buffers, name, EntryPlan::Replace(argument, entry)),
    }
}

/// What a command comes to in the buffer of a name, where its right is granted.
fn granted<T: Marked + Drop>(
    buffers: &Buffers<T>,
    directory: &Directory,
    name: Name,
    ruling: Ruling,
    argument: Option<usize>,
    typed: &[char],
) -> Outcome
    requires { HasBuffer name buffers.now }
    ensures value { IsRuled buffers.now (ruling_plan directory.now name (marked_at name buffers.now).buffer.entries ruling argument typed.now) result }
    ensures can { CanWhereGranted directory.now buffers.now name (ruling_mask ruling) result }
{
    match ruling {
        Ruling::Owner => owner_ruled(directory, name, typed),
        Ruling::Group => group_ruled(directory, name, typed),
        Ruling::Entries(change) => entries_ruled(buffers, name, change, argument, typed),
    }
}

/// What a command comes to for a session: the owner, the owning group or the access list changes of the buffer whose text or access list
/// its selected window shows. `typed` is the owner's name, the group's, which is empty for none, or the new entry.
pub(crate) fn plan_rule<T: Marked + Drop>(
    buffers: &Buffers<T>,
    directory: &Directory,
    session: &Session,
    ruling: Ruling,
    argument: Option<usize>,
    typed: &[char],
) -> Outcome
    ensures value { IsPlanned directory.now buffers.now session.now (Run (command_of ruling) argument typed.now) result }
    ensures can { CanPerform directory.now buffers.now session.now result }
{
    prove!(buffers.name_typed(&[]).is_none());
    let Some(name) = subject_in(buffers, session) else {
        return Outcome::Fails(Message::Says(Notice::NoBuffer));
    };
    let right = right_for(ruling);
    let ruled = granted(buffers, directory, name, ruling, argument, typed);
    judged(buffers, directory, session, &name, right, ruled)
}
