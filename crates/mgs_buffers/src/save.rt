// A save: the text of a buffer is handed to a store.
ghost use Rattle.std.specs.Prelude.{◌≡◌, ◌≢◌, false, is_ok, Err, IfErr, OnOk, OnErr};
ghost use Rattle.mgs_model.specs.Access.{decision};
ghost use Rattle.mgs_model.specs.Apply.{change_first};
ghost use Rattle.mgs_store.specs.Stores.{IsCounted, told_more};
ghost use Rattle.mgs_buffers.specs.Contents.{Changed};
ghost use Rattle.mgs_buffers.specs.MarkedBuffer.{HasBuffer, marked_at, marked_named, marked_unmodified};
ghost use Rattle.mgs_buffers.specs.Saving.{SaveAnswers, saves_if};
ghost use Rattle.mgs_buffers.specs.declared.refusals.SaveFault.TheVariants as fault;

use crate::buffer::{Buffer, read_and_write};
use crate::buffers::Buffers;
use crate::refusals::SaveFault;
use crate::searched_text::SearchedText;
use mgs_marks::Marked;
use mgs_model::Name;
use mgs_policy::Directory;
use mgs_store::Store;
use mgs_text::Text;

// The name's characters, as a text: all are ASCII.
fn spelled(name: &Name) -> &str
    ensures { result.now ≡ name.now }
{
    match str::from_utf8(name.as_bytes()) {
        Ok(text) => text,
        Err(_) => "",
    }
}

// Whether the store saved this text.
fn is_stored<S: Store>(store: &mut S, name: &Name, text: &[char]) -> bool
    ensures saved { S.accepted store.new ≡ told_more (saves_if result name.now text.now) (S.accepted store.old) }
    ensures fault { result ≡ false → IsCounted (S.failed store.old) (S.failed store.new) }
{
    match store.save(spelled(name), text) {
        Ok(()) => true,
        Err(_) => false,
    }
}

// Hands a text to the store as it lies, and tells whether it was saved.
fn ask_store<T: Marked + Drop, S: Store>(
    text: &mut SearchedText<T>,
    name: &Name,
    store: &mut S,
) -> bool
    ensures saved { S.accepted store.new ≡ told_more (saves_if result name.now (T.text text.old)) (S.accepted store.old) }
    ensures fault { result ≡ false → IsCounted (S.failed store.old) (S.failed store.new) }
    ensures text { T.text text.new ≡ T.text text.old }
    ensures marks { T.marks text.new ≡ T.marks text.old }
{
    text.gather();
    is_stored(store, name, text.text().whole())
}

impl<T: Marked + Drop> Buffer<T> {
    // Hands the text to the store as it lies, and tells whether it was saved.
    fn ask_store<S: Store>(&mut self, name: &Name, store: &mut S) -> bool
        ensures same { Changed T.text T.marks (λ k. k) self.old self.new }
        ensures saved { S.accepted store.new ≡ told_more (saves_if result name.now (T.text self.old.text)) (S.accepted store.old) }
        ensures fault { result ≡ false → IsCounted (S.failed store.old) (S.failed store.new) }
    {
        ask_store(&mut self.text, name, store)
    }

    // The save of a user, under the buffer's name.
    fn save_as<S: Store>(
        &mut self,
        directory: &Directory,
        user: &Name,
        name: &Name,
        store: &mut S,
    ) -> Result<(), SaveFault>
        ensures answer { SaveAnswers result (decision directory.now self.old.owners user.now self.old.list 3) self.old.has_file }
        ensures ok { OnOk result (Changed T.text T.marks marked_unmodified self.old self.new) }
        ensures err { OnErr result (Changed T.text T.marks (λ k. k) self.old self.new) }
        ensures saved { S.accepted store.new ≡ told_more (saves_if (is_ok result) name.now (T.text self.old.text)) (S.accepted store.old) }
        ensures fault { result ≡ Err fault.Store → IsCounted (S.failed store.old) (S.failed store.new) }
        ensures unasked { IfErr result (λ f. f ≢ fault.Store → store.new ≡ store.old) }
    {
        match self.permit(directory, user, read_and_write()) {
            Ok(()) => {}
            Err(decision) => return Err(SaveFault::Denied(decision)),
        }
        if !self.has_file {
            return Err(SaveFault::NoFile);
        }
        if !self.ask_store(name, store) {
            return Err(SaveFault::Store);
        }
        self.unmodify();
        Ok(())
    }
}

impl<T: Marked + Drop> Buffers<T> {
    /// Hands the buffer's text to a store, under the buffer's name, and clears the buffer's modified flag, where READ_DATA and
    /// WRITE_DATA are granted to the user.
    ///
    /// The faults, checked in this order, leave the buffers as they were: `Denied`, what the buffer's access list decides, which is
    /// not `Granted`; `NoFile` where the buffer has no file; `Store` where the store could not save the text, which it counted. But for
    /// the last the store was not asked. No memory is taken.
    pub fn save_as<S: Store>(
        &mut self,
        directory: &Directory,
        user: &Name,
        name: &Name,
        store: &mut S,
    ) -> Result<(), SaveFault>
        requires { HasBuffer name.now self.old }
        ensures answer { let b = (marked_at name.now self.old).buffer in SaveAnswers result (decision directory.now b.owners user.now b.entries 3) b.file }
        ensures ok { OnOk result (self.new ≡ change_first (marked_named name.now) marked_unmodified self.old) }
        ensures err { OnErr result (self.new ≡ self.old) }
        ensures saved { S.accepted store.new ≡ told_more (saves_if (is_ok result) name.now (marked_at name.now self.old).buffer.text) (S.accepted store.old) }
        ensures fault { result ≡ Err fault.Store → IsCounted (S.failed store.old) (S.failed store.new) }
        ensures unasked { IfErr result (λ f. f ≢ fault.Store → store.new ≡ store.old) }
    {
        let at = self.place_of(name);
        let (_, buffer) = self.all.pair_mut(at);
        buffer.save_as(directory, user, name, store)
    }
}
