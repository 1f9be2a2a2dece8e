// Calls on a buffer that was looked up before, by its name and its place among all: they look nothing up and decide nothing.
ghost use Rattle.std.specs.Prelude.{◌≡◌, ◌≤◌, find, length, OnOk, OnErr, false, true};
ghost use Rattle.std.specs.List.{position_or_len};
ghost use Rattle.std.specs.Option.{option_copied, option_map};
ghost use Rattle.mgs_model.specs.Acts.{is_full};
ghost use Rattle.mgs_model.specs.Apply.{change_first};
ghost use Rattle.mgs_model.specs.Text.{is_edit};
ghost use Rattle.mgs_model.specs.declared.entry.Decision.TheVariants.{Granted};
ghost use Rattle.mgs_undo.specs.History.{has_serial};
ghost use Rattle.mgs_undo.specs.Numbered.{item_of};
ghost use Rattle.mgs_buffers.specs.Changing.{writes};
ghost use Rattle.mgs_buffers.specs.Contents.{Changed, marked_of};
ghost use Rattle.mgs_buffers.specs.MarkedBuffer.{HasBuffer, IsMark, marked_at, marked_edited, marked_named, marked_placed, marked_unmodified};
ghost use Rattle.mgs_buffers.specs.Permitting.{mask_decision};
ghost use Rattle.mgs_buffers.specs.Placing.{CanStand, placed_if};

use crate::buffer::Buffer;
use crate::buffers::Buffers;
use crate::writer::Writer;
use mgs_marks::Marked;
use mgs_model::{MarkId, Mask, Name, Short};
use mgs_policy::Directory;
use mgs_text::Text;
use mgs_undo::Edit;

impl<T: Marked + Drop> Buffer<T> {
    // An edit that takes something out or puts something in, and has room.
    #[tactic(auto, using(crate::proofs::Places::serial_left))]
    fn edit_in_room(&mut self, a: usize, b: usize, put: &[char]) -> Result<(), Short>
        requires order { a ≤ b }
        requires within { b ≤ length (T.text self.old.text) }
        requires edit { is_edit a b put.now ≡ true }
        requires room { is_full (length (T.text self.old.text)) self.old.record.serial a b put.now ≡ false }
        ensures ok { OnOk result (Changed T.text T.marks (marked_edited a b put.now) self.old self.new) }
        ensures err { OnErr result (Changed T.text T.marks (λ k. k) self.old self.new) }
    {
        // For the range of a serial.
        prove!(self.record.serial() <= u64::MAX);
        self.edit(a, b, put)
    }
}

impl<T: Marked + Drop> Buffers<T> {
    // What is kept of the buffer of a name, which stands at a place.
    fn buffer_at(&self, name: &Name, at: usize) -> &Buffer<T>
        requires kept { HasBuffer name.now self.now }
        requires place { at ≡ position_or_len (marked_named name.now) self.now }
        ensures { marked_of T.text T.marks name.now result.now ≡ marked_at name.now self.now }
    {
        self.all.get_index(at).unwrap().1
    }

    /// The text of the buffer of a name, which stands at a place.
    pub fn text_at(&self, name: &Name, at: usize) -> &T
        requires kept { HasBuffer name.now self.now }
        requires place { at ≡ position_or_len (marked_named name.now) self.now }
        ensures text { T.text result.now ≡ (marked_at name.now self.now).buffer.text }
        ensures limit { length (T.text result.now) ≤ 1048576 }
    {
        // Tells the prover that each text is within the limit.
        prove!(self.len() <= usize::MAX);
        self.buffer_at(name, at).text.text()
    }

    /// The number of characters of the text of the buffer of a name, which stands at a place.
    pub fn text_len_at(&self, name: &Name, at: usize) -> usize
        requires kept { HasBuffer name.now self.now }
        requires place { at ≡ position_or_len (marked_named name.now) self.now }
        ensures value { result ≡ length (marked_at name.now self.now).buffer.text }
        ensures limit { result ≤ 1048576 }
    {
        self.text_at(name, at).len()
    }

    /// The serial of the last edit of the buffer of a name, which stands at a place: 0 where there was none.
    pub fn serial_at(&self, name: &Name, at: usize) -> u64
        requires kept { HasBuffer name.now self.now }
        requires place { at ≡ position_or_len (marked_named name.now) self.now }
        ensures { result ≡ (marked_at name.now self.now).buffer.serial }
    {
        self.buffer_at(name, at).record.serial()
    }

    /// The edit of a serial, where the buffer of a name, which stands at a place, keeps it.
    pub fn item_at(&self, name: &Name, at: usize, serial: u64) -> Option<&Edit>
        requires kept { HasBuffer name.now self.now }
        requires place { at ≡ position_or_len (marked_named name.now) self.now }
        ensures { option_map (item_of serial) (option_copied result) ≡ find (has_serial serial) (marked_at name.now self.now).buffer.items }
    {
        self.buffer_at(name, at).record.item(serial)
    }

    /// Puts characters in place of those from `a` up to `b` of the text of the writer's buffer, moves its marks, records the edit under the
    /// next serial, and sets the buffer's modified flag. All rights of the mask were granted to the writer, and a right to write is among
    /// them. `Short`: memory was refused, and all is as it was.
    pub fn edit_at(
        &mut self,
        writer: Writer<'_>,
        mask: Mask,
        a: usize,
        b: usize,
        put: &[char],
    ) -> Result<(), Short>
        requires kept { HasBuffer writer.name.now self.old }
        requires place { writer.at ≡ position_or_len (marked_named writer.name.now) self.old }
        requires writes { writes mask ≡ true }
        requires granted { mask_decision writer.directory.now (marked_at writer.name.now self.old).buffer writer.user.now mask ≡ Granted }
        requires order { a ≤ b }
        requires within { b ≤ length (marked_at writer.name.now self.old).buffer.text }
        requires edit { is_edit a b put.now ≡ true }
        requires room { is_full (length (marked_at writer.name.now self.old).buffer.text) (marked_at writer.name.now self.old).buffer.serial a b put.now ≡ false }
        ensures ok { OnOk result (self.new ≡ change_first (marked_named writer.entry.name.now) (marked_edited a b put.now) self.old) }
        ensures err { OnErr result (self.new ≡ self.old) }
    {
        let (_, buffer) = self.all.pair_mut(writer.at);
        buffer.edit_in_room(a, b, put)
    }

    /// Clears the modified flag of the buffer of a name, which stands at a place. READ_DATA and WRITE_DATA were granted to the user.
    pub fn unmodify_at(&mut self, directory: &Directory, user: &Name, name: &Name, at: usize)
        requires kept { HasBuffer name.now self.old }
        requires place { at ≡ position_or_len (marked_named name.now) self.old }
        requires granted { mask_decision directory.now (marked_at name.now self.old).buffer user.now 3 ≡ Granted }
        ensures { self.new ≡ change_first (marked_named name.now) marked_unmodified self.old }
    {
        let (_, buffer) = self.all.pair_mut(at);
        buffer.unmodify();
    }

    /// Puts a mark of the buffer of a name, which stands at a place, at a position.
    pub fn place_at(&mut self, name: &Name, at: usize, id: MarkId, p: usize)
        requires kept { HasBuffer name.now self.old }
        requires place { at ≡ position_or_len (marked_named name.now) self.old }
        requires mark { IsMark name.now id self.old }
        requires within { p ≤ length (marked_at name.now self.old).buffer.text }
        ensures { self.new ≡ change_first (marked_named name.now) (marked_placed id p) self.old }
    {
        let (_, buffer) = self.all.pair_mut(at);
        buffer.place(id, p);
    }

    /// Puts up to two marks of the buffer of a name, which stands at a place, at positions, one after the other.
    pub fn place_both_at(
        &mut self,
        name: &Name,
        at: usize,
        first: Option<(MarkId, usize)>,
        second: Option<(MarkId, usize)>,
    )
        requires kept { HasBuffer name.now self.old }
        requires place { at ≡ position_or_len (marked_named name.now) self.old }
        requires first { let k = marked_at name.now self.old in CanStand k.marks k.buffer.text first }
        requires second { let k = marked_at name.now self.old in CanStand k.marks k.buffer.text second }
        ensures { self.new ≡ placed_if name.now second (placed_if name.now first self.old) }
    {
        let (_, buffer) = self.all.pair_mut(at);
        buffer.place_both(first, second);
    }
}
