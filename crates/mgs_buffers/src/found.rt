// One buffer that was looked up by its name, and what is asked of it.
ghost use Rattle.std.specs.Prelude.{◌≡◌, ◌≤◌, find, length, true};
ghost use Rattle.std.specs.Option.{option_copied, option_map};
ghost use Rattle.mgs_model.specs.World.{may};
ghost use Rattle.mgs_model.specs.declared.entry.Decision.TheVariants.{Granted};
ghost use Rattle.mgs_undo.specs.History.{has_serial};
ghost use Rattle.mgs_undo.specs.Numbered.{item_of};
ghost use Rattle.mgs_buffers.specs.Contents.{marked_of};
ghost use Rattle.mgs_buffers.specs.Judging.{AreJudged, rules_kept};
ghost use Rattle.mgs_buffers.specs.MarkedBuffer.{HasBuffer, IsMark, mark_at, marked_at, marked_named};
ghost use Rattle.std.specs.List.{position_or_len};
ghost use Rattle.mgs_buffers.specs.Permitting.{mask_decision, right_decision};

use crate::buffer::Buffer;
use crate::buffers::Buffers;
use crate::judgement::is_outright;
use mgs_acl::Entry;
use mgs_cache::Judge;
use mgs_marks::Marked;
use mgs_model::{Decision, MarkId, Mask, Name, Right};
use mgs_policy::Directory;
use mgs_text::Text;
use mgs_undo::Edit;
use std::marker::Model;

/// A buffer that was looked up by its name: what is asked of it here needs no further look-up.
#[derive(Drop)]
pub struct Found<'a, T: Marked + Drop> {
    /// All buffers, among which it was looked up.
    pub(crate) buffers: &'a Buffers<T>,
    /// The name that it was looked up by.
    pub(crate) name: &'a Name,
    /// Its place among all: the judge keeps decisions by it.
    pub(crate) place: usize,
    /// What stands at that place.
    pub(crate) buffer: &'a Buffer<T>,
}

impl<'a, T: Marked + Drop> Model for Found<'a, T> {
    ghost use Rattle.mgs_buffers.specs.Found.{Named, IsFound};

    ghost Value = { Named };

    ghost view = { λ f. record { name = f.name.now; all = f.buffers.now } };

    ghost invariant = { λ f. IsFound T.text T.marks f.name.now f.buffers.now f.place f.buffer.now };
}

impl<'a, T: Marked + Drop> Found<'a, T> {
    // The field, with what the invariant says of it: the calls below ask it and need no lemma of their own.
    fn buffer(&self) -> &'a Buffer<T>
        ensures { marked_of T.text T.marks self.now.name result.now ≡ marked_at self.now.name self.now.all }
    {
        self.buffer
    }

    /// The buffer's name.
    pub fn name(&self) -> &'a Name
        ensures value { result.now ≡ self.now.name }
        ensures kept { HasBuffer self.now.name self.now.all }
    {
        self.name
    }

    /// The buffer's place among all, in the order of creation.
    pub fn place(&self) -> usize
        ensures { result ≡ position_or_len (marked_named self.now.name) self.now.all }
    {
        self.place
    }

    /// What the buffer's access list decides on one right of a user (RFC 8881, section 6.2.1).
    pub fn decide(&self, directory: &Directory, user: &Name, right: Right) -> Decision
        ensures { result ≡ right_decision directory.now (marked_at self.now.name self.now.all).buffer user.now right }
    {
        self.buffer().decide(directory, user, right)
    }

    /// What the buffer's access list decides on all rights of a mask, in one walk (RFC 8881, section 6.2.1).
    pub fn decide_all(&self, directory: &Directory, user: &Name, mask: Mask) -> Decision
        ensures { result ≡ mask_decision directory.now (marked_at self.now.name self.now.all).buffer user.now mask }
    {
        self.buffer().decide_all(directory, user, mask)
    }

    /// Whether a user is granted a right on the buffer.
    pub fn grants(&self, directory: &Directory, user: &Name, right: Right) -> bool
        ensures { result ≡ may directory.now user.now right (marked_at self.now.name self.now.all).buffer }
    {
        self.buffer().grants(directory, user, right)
    }

    /// Whether the buffer's access list is one of so few entries that a judge keeps nothing of it, and one walk over it grants all rights
    /// of a mask. Where it is not, nothing is said.
    pub fn grants_outright(&self, directory: &Directory, user: &Name, mask: Mask) -> bool
        ensures { result ≡ true → mask_decision directory.now (marked_at self.now.name self.now.all).buffer user.now mask ≡ Granted }
    {
        if !is_outright(&self.buffer().list) {
            return false;
        }
        self.decide_all(directory, user, mask) == Decision::Granted
    }

    /// What the buffer's access list decides on one right of a user (RFC 8881, section 6.2.1), by a judge that keeps what was
    /// decided on all buffers.
    pub fn decide_by(
        &self,
        judge: &mut Judge,
        directory: &Directory,
        user: &Name,
        right: Right,
    ) -> Decision
        requires { AreJudged directory.now (rules_kept self.now.all) judge.old }
        ensures value { result ≡ right_decision directory.now (marked_at self.now.name self.now.all).buffer user.now right }
        ensures judged { AreJudged directory.now (rules_kept self.now.all) judge.new }
    {
        self.buffer
            .decide_by(judge, self.place, directory, user, right)
    }

    /// Whether a user is granted a right on the buffer, by a judge that keeps what was decided on all buffers.
    pub fn grants_by(
        &self,
        judge: &mut Judge,
        directory: &Directory,
        user: &Name,
        right: Right,
    ) -> bool
        requires { AreJudged directory.now (rules_kept self.now.all) judge.old }
        ensures value { result ≡ may directory.now user.now right (marked_at self.now.name self.now.all).buffer }
        ensures judged { AreJudged directory.now (rules_kept self.now.all) judge.new }
    {
        self.buffer
            .grants_by(judge, self.place, directory, user, right)
    }

    /// The entries of the buffer's access list, in order.
    pub fn entries(&self) -> &'a [Entry]
        ensures { result.now ≡ (marked_at self.now.name self.now.all).buffer.entries }
    {
        self.buffer().list.as_slice()
    }

    /// The buffer's text, with its marks.
    pub fn text(&self) -> &'a T
        ensures text { T.text result.now ≡ (marked_at self.now.name self.now.all).buffer.text }
        ensures marks { T.marks result.now ≡ (marked_at self.now.name self.now.all).marks }
        ensures limit { length (T.text result.now) ≤ 1048576 }
    {
        // Tells the prover that each text is within the limit.
        prove!(self.buffers.len() <= usize::MAX);
        self.buffer().text.text()
    }

    /// The number of characters of the buffer's text.
    pub fn text_len(&self) -> usize
        ensures value { result ≡ length (marked_at self.now.name self.now.all).buffer.text }
        ensures limit { result ≤ 1048576 }
    {
        self.text().len()
    }

    /// Where a mark of the buffer stands.
    pub fn pos(&self, id: MarkId) -> usize
        requires { IsMark self.now.name id self.now.all }
        ensures value { result ≡ mark_at self.now.name self.now.all id }
        ensures within { result ≤ length (marked_at self.now.name self.now.all).buffer.text }
    {
        self.buffer().text.text().pos(id)
    }

    /// The serial of the buffer's last edit: 0 where there was none.
    pub fn serial(&self) -> u64
        ensures { result ≡ (marked_at self.now.name self.now.all).buffer.serial }
    {
        self.buffer().record.serial()
    }

    /// Whether the buffer was edited since it was made or last written to its file.
    pub fn is_modified(&self) -> bool
        ensures { result ≡ (marked_at self.now.name self.now.all).buffer.modified }
    {
        self.buffer().modified
    }

    /// Whether the buffer has a file.
    pub fn has_file(&self) -> bool
        ensures { result ≡ (marked_at self.now.name self.now.all).buffer.file }
    {
        self.buffer().has_file
    }

    /// The edit of a serial, where the buffer keeps it: where it was, the characters that it took out, and how many it put in.
    pub fn item(&self, serial: u64) -> Option<&'a Edit>
        ensures { option_map (item_of serial) (option_copied result) ≡ find (has_serial serial) (marked_at self.now.name self.now.all).buffer.items }
    {
        self.buffer().record.item(serial)
    }
}
