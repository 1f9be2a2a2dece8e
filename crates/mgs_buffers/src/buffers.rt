// All buffers, by name and in order of creation.
ghost use Rattle.std.specs.Prelude.{◌≡◌, ◌+◌, ◌-◌, ◌<◌, ◌≤◌, ◌∷◌, [], ◌++◌, List, map, find, length, None, false, count_by, is_some, slice_get, true};
ghost use Rattle.std.specs.Prelude.{OnOk, OnErr, IfOk, IfSome};
ghost use Rattle.std.specs.Option.{option_copied, option_map};
ghost use Rattle.mgs_undo.specs.History.{has_serial};
ghost use Rattle.mgs_undo.specs.Numbered.{item_of};
ghost use Rattle.std.specs.Map.{lookup};
ghost use Rattle.mgs_model.specs.Names.{IsName, same_name};
ghost use Rattle.std.specs.List.{position_or_len};
ghost use Rattle.mgs_model.specs.Apply.{change_first};
ghost use Rattle.mgs_model.specs.Completion.{completion};
ghost use Rattle.mgs_mini.specs.Narrowing.{granted_names};
ghost use Rattle.mgs_model.specs.World.{may};
ghost use Rattle.mgs_buffers.specs.Adding.{add_fault, AddAnswers, NamesToAdd, kept_buffer, marked_added};
ghost use Rattle.mgs_buffers.specs.Completed.{IsWithinName};
ghost use Rattle.mgs_buffers.specs.Contents.{marked_of};
ghost use Rattle.mgs_buffers.specs.Judging.{AreJudged, IsRuled, rules_kept};
ghost use Rattle.mgs_buffers.specs.Permitting.{PermitAnswers, mask_decision, right_decision};
ghost use Rattle.mgs_buffers.specs.Told.{attributes_read, attributes_found};
ghost use Rattle.mgs_buffers.specs.MarkedBuffer.{AreUnmarked, AreWithinLimit, HasBuffer, IsMark, MarkAdded, MarkDropped};
ghost use Rattle.mgs_buffers.specs.MarkedBuffer.{has_buffer, mark_at, marked_at, marked_created, marked_named, marked_placed, marked_restored};

use crate::buffer::{Buffer, new_buffer, owners_list};
use crate::completion::completion;
use crate::found::Found;
use crate::list_row::{Attributes, is_shown, told};
use crate::refusals::AddFault;
use crate::rights::Rights;
use crate::typed_name::name_typed;
use indexmap::IndexMap;
use mgs_acl::{group_named, user_named};
use mgs_cache::Judge;
use mgs_marks::Marked;
use mgs_model::{BUFFER_LIMIT, Decision, MarkId, Mask, Name, Owners, Right, Short, TEXT_LIMIT};
use mgs_policy::Directory;
use mgs_text::Text;
use mgs_undo::Edit;
use std::alloc::Global;
use std::marker::Model;

/// All buffers of a server, in order of creation: 256 at most, each by a name of its own.
///
/// A call that takes a name is about the buffer of that name, and the caller sees that there is one.
#[derive(Drop)]
pub struct Buffers<T: Marked + Drop> {
    /// Each buffer by its name, in order of creation.
    pub(crate) all: IndexMap<Name, Buffer<T>>,
    alloc: Global,
}

impl<T: Marked + Drop> Model for Buffers<T> {
    ghost use Rattle.std.specs.Prelude.{List};
    ghost use Rattle.mgs_buffers.specs.MarkedBuffer.{MarkedBuffer};

    ghost Value = { List MarkedBuffer };

    ghost use Rattle.mgs_buffers.specs.Contents.{marked_all};

    ghost view = { λ b. marked_all T.text T.marks b.all.entries };

    ghost use Rattle.mgs_buffers.specs.MarkedBuffer.{AreWithinLimit};

    ghost invariant = { λ b. AreWithinLimit (marked_all T.text T.marks b.all.entries) };
}

// Puts a buffer last, under a name that none has. By an entry: `insert` gives a buffer back at two places, which costs LLVM minutes.
fn put_last<T: Marked + Drop>(
    all: &mut IndexMap<Name, Buffer<T>>,
    name: Name,
    buffer: Buffer<T>,
) -> Result<(), Short>
    requires { lookup (same_name name) all.old.entries ≡ None }
    ensures ok { OnOk result (all.new.entries ≡ all.old.entries ++ (name, buffer) ∷ []) }
    ensures err { OnErr result (all.new.entries ≡ all.old.entries) }
{
    match all.entry(name) {
        Ok(entry) => {
            entry.insert_entry(buffer);
            Ok(())
        }
        Err(_) => Err(Short),
    }
}

impl<T: Marked + Drop> Buffers<T> {
    /// No buffer. It takes no memory; what is added later takes it from `alloc`.
    #[tactic(auto, using(crate::proofs::Unmarked::unmarked_none))]
    pub fn new(alloc: Global) -> Self
        ensures value { result ≡ [] }
        ensures unmarked { AreUnmarked result }
    {
        Buffers {
            all: IndexMap::new(alloc),
            alloc,
        }
    }

    /// Where the buffers take their memory.
    pub fn alloc(&self) -> Global {
        self.alloc
    }

    /// How many buffers there are.
    pub fn len(&self) -> usize
        ensures value { result ≡ length self.now }
        ensures limits { AreWithinLimit self.now }
    {
        self.all.len()
    }

    /// Whether there is a buffer of that name.
    pub fn has(&self, name: &Name) -> bool
        ensures { result ≡ has_buffer name.now self.now }
    {
        self.all.contains_key(name)
    }

    /// The name that was typed, where a buffer has it. What is no name is the name of none.
    pub fn name_typed(&self, typed: &[char]) -> Option<Name>
        ensures value { IfSome result (λ n. n ≡ typed.now) }
        ensures form { IfSome result (λ n. IsName n) }
        ensures there { is_some result ≡ has_buffer typed.now self.now }
    {
        name_typed(&self.all, typed)
    }

    /// Adds a buffer with this text as the last, without marks and with no edit recorded: its serial is 0. That its owner is
    /// a user of the directory, and its owning group a group of it, is for the caller to see.
    ///
    /// The faults, checked in this order: `Name` where `name` is no buffer's name, `owner` no user's or `group` no group's, `Twice`
    /// where a buffer has the name, `Full` where there are 256 buffers, `Long` where the text has more than 1,048,576 characters, `Short` where memory was
    /// refused. They change nothing.
    pub fn add(
        &mut self,
        name: &str,
        owner: &str,
        group: Option<&str>,
        list: mgs_acl::List,
        text: &[char],
        has_file: bool,
    ) -> Result<(), AddFault>
        ensures answer { AddAnswers result (add_fault name.now owner.now (option_copied group.entry) (length text.now) self.old) }
        ensures ok { OnOk result (self.new ≡ self.old ++ marked_added name.now owner.now (option_copied group.entry) list text.now has_file ∷ []) }
        ensures err { OnErr result (self.new ≡ self.old) }
        ensures unmarked { AreUnmarked self.old → AreUnmarked self.new }
    {
        let (name, owners) = match self.names_to_add(name, owner, group, text.len()) {
            Ok(names) => names,
            Err(fault) => return Err(fault),
        };
        match self.add_last(name, owners, list, text, has_file, false) {
            Ok(()) => Ok(()),
            Err(Short) => Err(AddFault::Short),
        }
    }

    /// Adds a buffer as the last, as `add` does, whose owners and access list were kept, and whether it was modified since it was last
    /// written to its file. That the owner is a user of the directory is for the caller to see.
    ///
    /// The faults, checked in this order: `Twice`, `Full`, `Long` and `Short`, as of `add`. They change nothing.
    pub fn restore(
        &mut self,
        rights: &Rights<'_>,
        text: &[char],
        has_file: bool,
        modified: bool,
    ) -> Result<(), AddFault>
        ensures ok { OnOk result (self.new ≡ self.old ++ kept_buffer rights.now text.now has_file modified ∷ []) }
        ensures err { OnErr result (self.new ≡ self.old) }
        ensures unmarked { AreUnmarked self.old → AreUnmarked self.new }
    {
        if self.has(rights.name) {
            return Err(AddFault::Twice);
        }
        if self.len() >= BUFFER_LIMIT {
            return Err(AddFault::Full);
        }
        if text.len() > TEXT_LIMIT {
            return Err(AddFault::Long);
        }
        match self.add_last(
            *rights.name,
            *rights.owners,
            rights.list.copy(),
            text,
            has_file,
            modified,
        ) {
            Ok(()) => Ok(()),
            Err(Short) => Err(AddFault::Short),
        }
    }

    /// Makes an empty buffer without a file, as the last. No group owns it, and its access list grants its owner every right, and
    /// nobody else any.
    /// `Short`: memory was refused, and all is as it was.
    pub fn create(&mut self, name: Name, owner: Name) -> Result<(), Short>
        requires { has_buffer name self.old ≡ false }
        ensures ok { OnOk result (self.new ≡ self.old ++ marked_created name owner ∷ []) }
        ensures err { OnErr result (self.new ≡ self.old) }
    {
        let owners = Owners { owner, group: None };
        self.add_last(name, owners, owners_list(), &[], false, false)
    }

    // Adds a buffer as the last. `Short`: memory was refused, and all is as it was.
    fn add_last(
        &mut self,
        name: Name,
        owners: Owners,
        list: mgs_acl::List,
        text: &[char],
        has_file: bool,
        modified: bool,
    ) -> Result<(), Short>
        requires free { has_buffer name self.old ≡ false }
        requires room { length text.now ≤ 1048576 }
        ensures ok { OnOk result (self.new ≡ self.old ++ marked_restored name owners list text.now has_file modified ∷ []) }
        ensures err { OnErr result (self.new ≡ self.old) }
    {
        let buffer = new_buffer(self.alloc, owners, list, text, has_file, modified)?;
        put_last(&mut self.all, name, buffer)
    }

    // The name and the owners, where a buffer of these and with a text of this size may be added.
    fn names_to_add(
        &self,
        name: &str,
        owner: &str,
        group: Option<&str>,
        size: usize,
    ) -> Result<(Name, Owners), AddFault>
        ensures answer { NamesToAdd result name.now owner.now (option_copied group.entry) size self.now }
        ensures free { IfOk result (λ names. has_buffer names.0 self.now ≡ false) }
        ensures room { IfOk result (λ names. size ≤ 1048576) }
    {
        let Some(name) = Name::read(name) else {
            return Err(AddFault::Name);
        };
        let Some(owner) = user_named(owner) else {
            return Err(AddFault::Name);
        };
        let Some(group) = group_named(group) else {
            return Err(AddFault::Name);
        };
        if self.has(&name) {
            return Err(AddFault::Twice);
        }
        if self.len() >= BUFFER_LIMIT {
            return Err(AddFault::Full);
        }
        if size > TEXT_LIMIT {
            return Err(AddFault::Long);
        }
        Ok((name, Owners { owner, group }))
    }

    /// The place of the buffer among all, in the order of creation.
    #[tactic(auto, using(crate::proofs::MarkedLemmas::place_kept))]
    pub fn place_of(&self, name: &Name) -> usize
        requires { HasBuffer name.now self.now }
        ensures value { result ≡ position_or_len (marked_named name.now) self.now }
        ensures within { result < length self.now }
    {
        self.all.get_index_of(name).unwrap()
    }

    // The place of a buffer, the name that it is kept under, and the buffer.
    fn placed(&self, name: &Name) -> (usize, &Name, &Buffer<T>)
        requires { HasBuffer name.now self.now }
        ensures name { result.1.now ≡ name.now }
        ensures buffer { marked_of T.text T.marks name.now result.2.now ≡ marked_at name.now self.now }
        ensures place { IsRuled result.0 result.2.now.owners result.2.now.list (rules_kept self.now) }
        ensures at { result.0 ≡ position_or_len (marked_named name.now) self.now }
    {
        self.all.get_full(name).unwrap()
    }

    fn buffer(&self, name: &Name) -> &Buffer<T>
        requires { HasBuffer name.now self.now }
        ensures { marked_of T.text T.marks name.now result.now ≡ marked_at name.now self.now }
    {
        self.placed(name).2
    }

    /// Looks the buffer up, for all that is then asked of it.
    #[tactic(auto, using(crate::proofs::Finds::found_there))]
    pub fn find(&self, name: &Name) -> Found<'_, T>
        requires { HasBuffer name.now self.now }
        ensures { result ≡ record { name = name.now; all = self.now } }
    {
        let (place, name, buffer) = self.placed(name);
        Found {
            buffers: self,
            name,
            place,
            buffer,
        }
    }

    /// What the buffer's access list decides on one right of a user (RFC 8881, section 6.2.1).
    pub fn decide(&self, directory: &Directory, name: &Name, user: &Name, right: Right) -> Decision
        requires { HasBuffer name.now self.now }
        ensures { result ≡ right_decision directory.now (marked_at name.now self.now).buffer user.now right }
    {
        self.buffer(name).decide(directory, user, right)
    }

    /// What the buffer's access list decides on all rights of a mask, in one walk (RFC 8881, section 6.2.1).
    pub fn decide_all(
        &self,
        directory: &Directory,
        name: &Name,
        user: &Name,
        mask: Mask,
    ) -> Decision
        requires { HasBuffer name.now self.now }
        ensures { result ≡ mask_decision directory.now (marked_at name.now self.now).buffer user.now mask }
    {
        self.buffer(name).decide_all(directory, user, mask)
    }

    /// Whether a user is granted a right on the buffer.
    pub fn grants(&self, directory: &Directory, name: &Name, user: &Name, right: Right) -> bool
        requires { HasBuffer name.now self.now }
        ensures { result ≡ may directory.now user.now right (marked_at name.now self.now).buffer }
    {
        self.buffer(name).grants(directory, user, right)
    }

    // Whether a user is granted all rights of a mask on the buffer, and if not, what its access list decides.
    pub(crate) fn permit(
        &self,
        directory: &Directory,
        user: &Name,
        name: &Name,
        mask: Mask,
    ) -> Result<(), Decision>
        requires { HasBuffer name.now self.now }
        ensures { PermitAnswers result (mask_decision directory.now (marked_at name.now self.now).buffer user.now mask) }
    {
        self.buffer(name).permit(directory, user, mask)
    }

    /// A judge for these buffers, which keeps nothing yet. `Short`: memory was refused.
    #[tactic(auto, using(crate::proofs::Judged::judged_none))]
    pub fn judge(&self) -> Result<Judge, Short>
        ensures { IfOk result (λ judge. (directory : Directory) → AreJudged directory (rules_kept self.now) judge) }
    {
        Judge::new(self.alloc)
    }

    /// The first buffer on which a user is granted READ_ATTRIBUTES: its name.
    pub fn first_shown(&self, directory: &Directory, user: &Name) -> Option<Name>
        ensures value { result ≡ option_map (λ b. b.name) (find (may directory.now user.now Right.ReadAttributes) (map (λ k. k.buffer) self.now)) }
        ensures kept { IfSome result (λ n. HasBuffer n self.now) }
    {
        for (name, buffer) in self.all.iter() {
            if is_shown(name, buffer, directory, user) {
                return Some(*name);
            }
        }
        None
    }

    /// What is typed as a buffer's name is completed to: the longest text with which the names begin that begin with `input`, of
    /// the buffers on which a user is granted READ_ATTRIBUTES, by a judge that keeps what was decided on these buffers. `None`: there
    /// is no such name.
    pub fn completion<'a>(
        &'a self,
        judge: &mut Judge,
        directory: &Directory,
        user: &Name,
        input: &[char],
    ) -> Option<&'a [u8]>
        requires { AreJudged directory.now (rules_kept self.now) judge.old }
        ensures within { IsWithinName (option_map (λ t. t.now) result) }
        ensures value { option_map (λ t. t.now) result ≡ completion (granted_names directory.now user.now (map (λ k. k.buffer) self.now)) input.now }
        ensures judged { AreJudged directory.now (rules_kept self.now) judge.new }
    {
        completion(&self.all, judge, directory, user, input)
    }

    /// What a user is told of the `i`-th buffer, in the order of creation: `None` where READ_ATTRIBUTES is not granted, by a judge
    /// that keeps what was decided on these buffers, and where there are no more than `i` buffers.
    pub fn attributes(
        &self,
        judge: &mut Judge,
        directory: &Directory,
        user: &Name,
        i: usize,
    ) -> Option<Attributes>
        requires { AreJudged directory.now (rules_kept self.now) judge.old }
        ensures value { option_map attributes_read result ≡ attributes_found directory.now user.now (slice_get self.now i) }
        ensures judged { AreJudged directory.now (rules_kept self.now) judge.new }
    {
        match self.all.get_index(i) {
            Some((name, buffer)) => told(name, buffer, judge, i, directory, user),
            None => None,
        }
    }

    /// By what access to the `i`-th buffer is decided, in the order of creation, from 0. `None` where there are no more than `i` buffers.
    pub fn rights(&self, i: usize) -> Option<Rights<'_>>
        ensures { result ≡ slice_get (rules_kept self.now) i }
    {
        match self.all.get_index(i) {
            Some((name, buffer)) => Some(Rights {
                name,
                owners: &buffer.owners,
                list: &buffer.list,
            }),
            None => None,
        }
    }

    /// The buffer's access list once more. It takes no memory.
    pub fn copy_list(&self, name: &Name) -> mgs_acl::List
        requires { HasBuffer name.now self.now }
        ensures { result ≡ (marked_at name.now self.now).buffer.entries }
    {
        self.buffer(name).list.copy()
    }

    /// The buffer's text, with its marks.
    pub fn text(&self, name: &Name) -> &T
        requires { HasBuffer name.now self.now }
        ensures text { T.text result.now ≡ (marked_at name.now self.now).buffer.text }
        ensures marks { T.marks result.now ≡ (marked_at name.now self.now).marks }
    {
        self.find(name).text()
    }

    /// The number of characters of the buffer's text.
    pub fn text_len(&self, name: &Name) -> usize
        requires { HasBuffer name.now self.now }
        ensures value { result ≡ length (marked_at name.now self.now).buffer.text }
        ensures limit { result ≤ 1048576 }
    {
        // Tells the prover that each text is within the limit.
        prove!(self.len() <= usize::MAX);
        self.buffer(name).text.text().len()
    }

    /// Whether the buffer's text is within the limit, which it always is: `prove!` says so where positions are added up.
    pub fn is_within_limit(&self, name: &Name) -> bool
        requires { HasBuffer name.now self.now }
        ensures value { result ≡ true }
        ensures limit { length (marked_at name.now self.now).buffer.text ≤ 1048576 }
    {
        prove!(self.len() <= usize::MAX);
        self.has(name)
    }

    /// The serial of the buffer's last edit: 0 where there was none.
    pub fn serial(&self, name: &Name) -> u64
        requires { HasBuffer name.now self.now }
        ensures { result ≡ (marked_at name.now self.now).buffer.serial }
    {
        self.find(name).serial()
    }

    /// Whether the buffer was edited since it was made or last written to its file.
    pub fn is_modified(&self, name: &Name) -> bool
        requires { HasBuffer name.now self.now }
        ensures { result ≡ (marked_at name.now self.now).buffer.modified }
    {
        self.find(name).is_modified()
    }

    /// Whether the buffer has a file.
    pub fn has_file(&self, name: &Name) -> bool
        requires { HasBuffer name.now self.now }
        ensures { result ≡ (marked_at name.now self.now).buffer.file }
    {
        self.buffer(name).has_file
    }

    /// The edit of a serial, where the buffer keeps it: where it was, the characters that it took out, and how many it put in.
    pub fn item(&self, name: &Name, serial: u64) -> Option<&Edit>
        requires { HasBuffer name.now self.now }
        ensures { option_map (item_of serial) (option_copied result) ≡ find (has_serial serial) (marked_at name.now self.now).buffer.items }
    {
        self.find(name).item(serial)
    }

    /// Where a mark of the buffer stands.
    pub fn pos(&self, name: &Name, id: MarkId) -> usize
        requires kept { HasBuffer name.now self.now }
        requires mark { IsMark name.now id self.now }
        ensures value { result ≡ mark_at name.now self.now id }
        ensures within { result ≤ length (marked_at name.now self.now).buffer.text }
    {
        self.buffer(name).text.text().pos(id)
    }

    /// Puts a mark of the buffer at a position.
    pub fn place(&mut self, name: &Name, id: MarkId, p: usize)
        requires kept { HasBuffer name.now self.old }
        requires mark { IsMark name.now id self.old }
        requires within { p ≤ length (marked_at name.now self.old).buffer.text }
        ensures { self.new ≡ change_first (marked_named name.now) (marked_placed id p) self.old }
    {
        let at = self.place_of(name);
        self.place_at(name, at, id, p);
    }

    /// A new mark in the buffer, at a position. `Short`: memory was refused, and all is as it was.
    pub fn add_mark(&mut self, name: &Name, p: usize) -> Result<MarkId, Short>
        requires kept { HasBuffer name.now self.old }
        requires within { p ≤ length (marked_at name.now self.old).buffer.text }
        ensures ok { IfOk result (λ id. MarkAdded name.now p id self.old self.new) }
        ensures err { OnErr result (self.new ≡ self.old) }
    {
        let at = self.place_of(name);
        let (_, buffer) = self.all.pair_mut(at);
        buffer.add_mark(p)
    }

    /// Gives a mark of the buffer up.
    pub fn drop_mark(&mut self, name: &Name, id: MarkId)
        requires kept { HasBuffer name.now self.old }
        requires mark { IsMark name.now id self.old }
        ensures { MarkDropped name.now id self.old self.new }
    {
        let at = self.place_of(name);
        let (_, buffer) = self.all.pair_mut(at);
        buffer.drop_mark(id);
    }

    /// How many marks of the buffer are in use.
    pub fn mark_count(&self, name: &Name) -> usize
        requires { HasBuffer name.now self.now }
        ensures { result ≡ count_by is_some (marked_at name.now self.now).marks }
    {
        self.buffer(name).text.text().mark_count()
    }
}
