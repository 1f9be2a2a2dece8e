// What is kept of one buffer beside its name.
ghost use Rattle.std.specs.Prelude.{◌≡◌, ◌≢◌, ℕ, ◌-◌, ◌<◌, ◌≤◌, ◌^◌, ◌∷◌, [], List, Some, None, length};
ghost use Rattle.std.specs.Prelude.{IsSome, OnOk, OnErr, IfOk};
ghost use Rattle.mgs_model.specs.Access.{decider, decision, decision_by};
ghost use Rattle.mgs_model.specs.Apply.{first_entries};
ghost use Rattle.mgs_model.specs.World.{may};
ghost use Rattle.mgs_marks.specs.Marks.{mark_in};
ghost use Rattle.mgs_buffers.specs.MarkedBuffer.{marked_restored, marked_edited, marked_placed};
ghost use Rattle.mgs_buffers.specs.Contents.{Changed, ChangedMarks, marked_of};
ghost use Rattle.mgs_buffers.specs.Judging.{StaysRight};
ghost use Rattle.mgs_buffers.specs.Permitting.{PermitAnswers};
ghost use Rattle.mgs_buffers.specs.Placing.{CanStand, marked_placed_if};
ghost use Rattle.mgs_cache.specs.Kept.{AreRight};

use crate::judgement::judged;
use crate::searched_text::SearchedText;
use mgs_acl::{Entry, EntryType, Who};
use mgs_cache::Judge;
use mgs_marks::Marked;
use mgs_model::{Decision, MarkId, Mask, Name, Owners, Right, Short};
use mgs_policy::{Directory, decide, decide_right, is_granted};
use mgs_text::Text;
use mgs_undo::{Edit, Record};
use std::alloc::Global;

/// What is kept of one buffer beside its name. The buffers keep it under that name.
#[derive(Drop)]
pub struct Buffer<T: Marked + Drop> {
    /// Who owns the buffer.
    pub owners: Owners,
    /// Who has which right on the buffer.
    pub list: mgs_acl::List,
    /// The text, with its marks.
    pub text: SearchedText<T>,
    /// The latest edits of the text.
    pub record: Record,
    /// Whether the buffer was edited since it was made or last written to its file.
    pub modified: bool,
    /// Whether the buffer has a file.
    pub has_file: bool,
}

// The bits of every right.
const ALL_RIGHTS: u32 = 983_175;

// READ_DATA and WRITE_DATA.
pub(crate) fn read_and_write() -> Mask
    ensures { result ≡ 3 }
{
    Mask::from_bits(Right::ReadData.bit() + Right::WriteData.bit())
}

// An access list that grants the owner every right, and nobody else any.
pub(crate) fn owners_list() -> mgs_acl::List
    ensures { result ≡ first_entries }
{
    let mut list = mgs_acl::List::new();
    let _ = list.insert(
        0,
        Entry {
            entry_type: EntryType::Allow,
            who: Who::Owner,
            mask: Mask::from_bits(ALL_RIGHTS),
        },
    );
    list
}

/// A buffer with a text of which no edit is recorded: it has no marks, and its serial is 0. It takes its memory from `alloc`.
/// `Short`: memory was refused.
pub fn new_buffer<T: Marked + Drop>(
    alloc: Global,
    owners: Owners,
    list: mgs_acl::List,
    text: &[char],
    has_file: bool,
    modified: bool,
) -> Result<Buffer<T>, Short>
    ensures { IfOk result (λ s. (name : List ℕ) → marked_of T.text T.marks name s ≡ marked_restored name owners list text.now has_file modified) }
{
    let text = SearchedText::of(alloc, text)?;
    let record = Record::new(alloc)?;
    Ok(Buffer {
        owners,
        list,
        text,
        record,
        modified,
        has_file,
    })
}

impl<T: Marked + Drop> Buffer<T> {
    /// What the access list decides on one right of a user (RFC 8881, section 6.2.1).
    pub fn decide(&self, directory: &Directory, user: &Name, right: Right) -> Decision
        ensures { result ≡ decision_by (decider directory.now self.now.owners user.now self.now.list) (right ∷ []) }
    {
        decide_right(&self.list, &self.owners, user, directory, right)
    }

    /// What it decides on all rights of a mask.
    pub fn decide_all(&self, directory: &Directory, user: &Name, mask: Mask) -> Decision
        ensures { result ≡ decision directory.now self.now.owners user.now self.now.list mask }
    {
        let group = self.owners.group.as_ref();
        decide(&self.list, &self.owners.owner, group, user, directory, mask)
    }

    /// Whether a user is granted all rights of a mask, and if not, what the access list decides.
    pub fn permit(&self, directory: &Directory, user: &Name, mask: Mask) -> Result<(), Decision>
        ensures { PermitAnswers result (decision directory.now self.now.owners user.now self.now.list mask) }
    {
        let decision = self.decide_all(directory, user, mask);
        match decision {
            Decision::Granted => Ok(()),
            Decision::DeniedBy { .. } | Decision::NotGranted { .. } => Err(decision),
        }
    }

    /// Whether a user is granted a right on the buffer.
    pub fn grants(&self, directory: &Directory, user: &Name, right: Right) -> bool
        ensures { (name : List ℕ) → result ≡ may directory.now user.now right (marked_of T.text T.marks name self.now).buffer }
    {
        is_granted(&self.list, &self.owners, user, directory, right)
    }

    /// What a judge decides on one right of a user, where the buffer stands at a place.
    pub fn decide_by(
        &self,
        judge: &mut Judge,
        place: usize,
        directory: &Directory,
        user: &Name,
        right: Right,
    ) -> Decision
        requires { AreRight place directory.now self.now.owners self.now.list judge.old }
        ensures value { result ≡ decision_by (decider directory.now self.now.owners user.now self.now.list) (right ∷ []) }
        ensures stays { StaysRight place directory.now self.now.owners self.now.list judge.old judge.new }
    {
        judged(
            judge,
            place,
            &self.list,
            &self.owners,
            user,
            directory,
            right,
        )
    }

    /// Whether a judge grants it.
    pub fn grants_by(
        &self,
        judge: &mut Judge,
        place: usize,
        directory: &Directory,
        user: &Name,
        right: Right,
    ) -> bool
        requires { AreRight place directory.now self.now.owners self.now.list judge.old }
        ensures value { (name : List ℕ) → result ≡ may directory.now user.now right (marked_of T.text T.marks name self.now).buffer }
        ensures stays { StaysRight place directory.now self.now.owners self.now.list judge.old judge.new }
    {
        self.decide_by(judge, place, directory, user, right) == Decision::Granted
    }

    /// Puts a mark of the text at a position.
    pub fn place(&mut self, id: MarkId, p: usize)
        requires used { IsSome (mark_in (T.marks self.old.text) id) }
        requires within { p ≤ length (T.text self.old.text) }
        ensures { (name : List ℕ) → marked_of T.text T.marks name self.new ≡ marked_placed id p (marked_of T.text T.marks name self.old) }
    {
        self.text.place(id, p);
    }

    // The same, where a mark is to go anywhere.
    fn place_if(&mut self, target: Option<(MarkId, usize)>)
        requires { CanStand (T.marks self.old.text) (T.text self.old.text) target }
        ensures { Changed T.text T.marks (marked_placed_if target) self.old self.new }
    {
        match target {
            None => {}
            Some(mark) => self.place(mark.0, mark.1),
        }
    }

    /// Puts up to two marks of the text at positions, one after the other.
    pub fn place_both(&mut self, first: Option<(MarkId, usize)>, second: Option<(MarkId, usize)>)
        requires first { CanStand (T.marks self.old.text) (T.text self.old.text) first }
        requires second { CanStand (T.marks self.old.text) (T.text self.old.text) second }
        ensures { Changed T.text T.marks (λ k. marked_placed_if second (marked_placed_if first k)) self.old self.new }
    {
        self.place_if(first);
        self.place_if(second);
    }

    /// A new mark in the text, at a position. `Short`: memory was refused, and all is as it was.
    pub fn add_mark(&mut self, p: usize) -> Result<MarkId, Short>
        requires { p ≤ length (T.text self.old.text) }
        ensures shape { ChangedMarks T.text T.marks self.old self.new }
        ensures free { IfOk result (λ id. mark_in (T.marks self.old.text) id ≡ None) }
        ensures added { IfOk result (λ id. mark_in (T.marks self.new.text) id ≡ Some p) }
        ensures others { IfOk result (λ id. (k : ℕ) → k ≢ id → mark_in (T.marks self.new.text) k ≡ mark_in (T.marks self.old.text) k) }
        ensures err { OnErr result ((name : List ℕ) → marked_of T.text T.marks name self.new ≡ marked_of T.text T.marks name self.old) }
    {
        self.text.add_mark(p)
    }

    /// Gives a mark of the text up.
    pub fn drop_mark(&mut self, id: MarkId)
        requires { IsSome (mark_in (T.marks self.old.text) id) }
        ensures shape { ChangedMarks T.text T.marks self.old self.new }
        ensures gone { mark_in (T.marks self.new.text) id ≡ None }
        ensures others { (k : ℕ) → k ≢ id → mark_in (T.marks self.new.text) k ≡ mark_in (T.marks self.old.text) k }
    {
        self.text.drop_mark(id);
    }

    /// Puts characters in place of those from `a` up to `b` of the text, moves its marks, records the edit under the next
    /// serial, and sets the buffer's modified flag. Where nothing is taken out and nothing put in, all stays as it is.
    /// `Short`: memory was refused, and all is as it was.
    pub(crate) fn edit(&mut self, a: usize, b: usize, put: &[char]) -> Result<(), Short>
        requires order { a ≤ b }
        requires within { b ≤ length (T.text self.old.text) }
        requires serial { self.old.record.serial < 2 ^ 64 - 1 }
        ensures ok { OnOk result (Changed T.text T.marks (marked_edited a b put.now) self.old self.new) }
        ensures err { OnErr result (Changed T.text T.marks (λ k. k) self.old self.new) }
    {
        if a == b && put.is_empty() {
            return Ok(());
        }
        let removed = self.text.text().copy(a, b)?;
        self.text.replace(a, b, put)?;
        let _ = self.record.push(Edit {
            at: a,
            removed,
            added: put.len(),
        });
        self.modified = true;
        Ok(())
    }
}
