//! What a journal is: where it is kept by what access to each buffer is decided, and what is told of events.
#![tactic(auto)]

mod access_equality;
mod chain;
mod change;
mod room;
mod snapshot;

pub use access_equality::{are_same, is_same_group, is_same_list, is_same_name};
pub use chain::{Chain, Successor};
pub use change::Change;
use mgs_buffers::Rights;
use mgs_model::{Decision, Name};
use mgs_wire::Refusal;
pub use room::Room;
pub use snapshot::Snapshot;
use thiserror::Error;

/// The journal did not take it.
#[derive(Clone, Copy, Debug, PartialEq, Eq, Error)]
#[error("journal failed")]
pub struct JournalFault;

/// What is told of an event beside what it made of rights.
#[derive(Clone, Copy)]
pub enum Told {
    /// A session of a user was opened.
    Came(Name),
    /// A login by this name was refused, and why.
    Refused(Name, Refusal),
    /// A login whose line said no name was refused, and why.
    RefusedUnnamed(Refusal),
    /// A user ended his session.
    Quit(Name),
    /// The connection of a user's session was closed.
    Closed(Name),
    /// A user's session was ended, since its terminal fell behind.
    FellBehind(Name),
    /// A user was denied something at the buffer of this name, and what decided that.
    Denied(Name, Name, Decision),
    /// A user saved the buffer of this name.
    Saved(Name, Name),
    /// One key of a user did and was denied more than is told one by one.
    Crowded(Name),
}

/// Persistent store for the rights of each buffer, the texts of buffers, and the audit events.
///
/// A fault leaves unknown what is kept: nothing is asked of the journal after it.
pub trait Journal {
    ghost use Rattle.std.specs.Prelude.{◌≡◌, ℕ, Bool, ◌<◌, List, IfSome, OnOk, OnErr, Option, None, Some, get_or, length, slice_get, slice_set, string_bytes, ◌&&◌, not};
    ghost use Rattle.mgs_model.specs.Names.{same_name};
    ghost use Rattle.mgs_journal.specs.Acts.{Act, Alter, Forget, Put, Tell, Tick};
    ghost use Rattle.mgs_journal.specs.Changes.{rows_changed, texts_changed};
    ghost use Rattle.mgs_journal.specs.Kept.{place_of, without};
    ghost use Rattle.mgs_journal.specs.Rows.{KeptRights, births_in_rows, rules_in_rows};
    ghost use Rattle.mgs_journal.specs.Texts.{KeptText};

    // What is kept of the rights of each buffer, in the order of creation.
    ghost rows: { Self → List KeptRights };

    // What is kept of their texts, in the same order. A buffer whose text was not kept yet has none.
    ghost texts: { Self → List (Option KeptText) };

    // The names whose buffer a user made or killed last, as it was when the journal was opened: what a configuration has under such a
    // name is another buffer.
    ghost taken: { Self → List ℕ → Bool };

    // It took what it was asked for, which leads from one state to another.
    ghost does: { Self → Act → Self → Type 0 };

    // It did not take what it was asked for, which leads from one state to another.
    ghost fails: { Self → Self → Type 0 };

    /// The rights that are kept of the `i`-th buffer. `None` if no more than `i` are kept.
    fn rights(&self, i: usize) -> Option<Rights<'_>>
        ensures { result ≡ slice_get (rules_in_rows (rows self.now)) i };

    /// The birth number that is kept of the `i`-th buffer. 0 if no more than `i` are kept.
    fn birth(&self, i: usize) -> u64
        ensures { result ≡ get_or (births_in_rows (rows self.now)) i 0 };

    /// The index of the first buffer of this name among those that are kept. `None` if none is kept.
    fn place(&self, name: &Name) -> Option<usize>
        ensures value { result ≡ place_of name.now (rules_in_rows (rows self.now)) }
        ensures within { IfSome result (λ i. i < length (rows self.now)) };

    /// What is kept of the text of the `i`-th buffer. `None` if none of its texts was kept yet, and if no more than `i` buffers are kept.
    fn text(&self, i: usize) -> Option<Snapshot<'_>>
        ensures { result ≡ get_or (texts self.now) i None };

    /// Whether `interval` seconds are over since a text was kept last, or the clock was set back by so many.
    fn is_text_due(&self, interval: u64) -> bool;

    /// Whether a user made or killed the last buffer of this name before the journal was opened. What a configuration has under such a name
    /// is another buffer.
    fn is_taken(&self, name: &Name) -> bool
        ensures { result ≡ taken self.now name.now };

    /// Makes these changes, one after another, by this user, or by nobody if the server makes them at its start. They are kept at once, all
    /// of them or none: no crash leaves a part.
    fn change(&mut self, user: Option<Name>, changes: &[Change<'_>]) -> Result<(), JournalFault>
        ensures rows { OnOk result (rows self.new ≡ rows_changed changes.now (rows self.old)) }
        ensures texts { OnOk result (texts self.new ≡ texts_changed changes.now (texts self.old)) }
        ensures taken { OnOk result ((name : List ℕ) → taken self.new name ≡ taken self.old name) }
        ensures done { OnOk result (does self.old (Alter user changes.now) self.new) }
        ensures failed { OnErr result (fails self.old self.new) };

    /// Removes what is kept of the first buffer of this name, if one is kept, and frees the name: the next buffer of it is a
    /// configuration's.
    fn forget(&mut self, name: &Name) -> Result<(), JournalFault>
        ensures rows { OnOk result (rows self.new ≡ without (place_of name.now (rules_in_rows (rows self.old))) (rows self.old)) }
        ensures texts { OnOk result (texts self.new ≡ without (place_of name.now (rules_in_rows (rows self.old))) (texts self.old)) }
        ensures taken { OnOk result ((other : List ℕ) → taken self.new other ≡ (taken self.old other && not (same_name name.now other))) }
        ensures done { OnOk result (does self.old (Forget name.now) self.new) }
        ensures failed { OnErr result (fails self.old self.new) };

    /// Keeps a text of the `i`-th buffer in the place of the one before: the text, whether the buffer is modified, and the checksum of its
    /// file's text.
    fn set_text(
        &mut self,
        i: usize,
        body: String,
        modified: bool,
        file: i64,
    ) -> Result<(), JournalFault>
        requires { i < length (rows self.old) }
        ensures rows { OnOk result (rows self.new ≡ rows self.old) }
        ensures texts { OnOk result (texts self.new
            ≡ slice_set (texts self.old) i (Some (record { body = string_bytes body; modified = modified; file = file }))) }
        ensures done { OnOk result (does self.old (Put i (record { body = string_bytes body; modified = modified; file = file })) self.new) }
        ensures failed { OnErr result (fails self.old self.new) };

    /// Appends an audit event. It can be gathered; `tick` commits what is gathered.
    fn tell(&mut self, told: Told) -> Result<(), JournalFault>
        ensures rows { OnOk result (rows self.new ≡ rows self.old) }
        ensures texts { OnOk result (texts self.new ≡ texts self.old) }
        ensures done { OnOk result (does self.old (Tell told) self.new) }
        ensures failed { OnErr result (fails self.old self.new) };

    /// Commits the gathered events, if the oldest of them is due.
    fn tick(&mut self) -> Result<(), JournalFault>
        ensures rows { OnOk result (rows self.new ≡ rows self.old) }
        ensures texts { OnOk result (texts self.new ≡ texts self.old) }
        ensures done { OnOk result (does self.old Tick self.new) }
        ensures failed { OnErr result (fails self.old self.new) };
}
