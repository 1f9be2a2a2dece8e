// A server and its journal.
ghost use Rattle.std.specs.Prelude.{◌≡◌, ℕ, List, None, IfOk, false, []};
ghost use Rattle.mgs_wire.specs.Calls.{Open};
ghost use Rattle.mgs_keep.specs.Ends.{AreNoted, ends_told, ids_due, noted_after, noted_left};
ghost use Rattle.mgs_keep.specs.Keeping.{AreKept, HasChanged, OrFails, WereTold, held, recording};

use crate::access_changes::{keep, keep_all};
use crate::kept_texts::{keep_next, keep_saved};
use crate::round::Round;
use crate::session_users::Users;
use crate::tellings::{name_in_bytes, opening_told, refused, tell, tell_event, tick};
use mgs_engine::Engine;
use mgs_journal::{Journal, JournalFault, Room};
use mgs_marks::Marked;
use mgs_model::{Keyed, Message, Name, OpenFault, SessionId};
use mgs_store::Store;
use mgs_wire::{Refusal, Served, Sessions};
use std::alloc::Global;
use std::marker::Model;

// The memory that is set aside for a text as UTF-8, in bytes: such a text has 4 MB at most, and grows by doubling.
const ROOM: usize = 16_777_216;

/// A server of sessions, and the journal that keeps by what access its buffers may be shown. No byte is handed to a terminal before the
/// journal keeps by what access each buffer is decided, and none once it failed.
#[derive(Drop)]
pub struct Kept<T: Marked + Drop, S: Store + Drop, J: Journal + Drop> {
    engine: Engine<T, S>,
    journal: J,
    // Whose the sessions are that did not end, or are still to be told.
    users: Users,
    // Which texts are still to be kept.
    round: Round,
    // The memory for a text that is handed to the journal.
    room: Room,
    alloc: Global,
    // The journal did not take something: nothing is asked of it and nothing is shown any more.
    failed: bool,
}

impl<T: Marked + Drop, S: Store + Drop, J: Journal + Drop> Model for Kept<T, S, J> {
    ghost use Rattle.mgs_keep.specs.Keeping.{Held};

    ghost Value = { Held J };

    ghost use Rattle.std.specs.Prelude.{◌≡◌, false};
    ghost use Rattle.mgs_keep.specs.Keeping.{AreKept, held};

    ghost view = { λ k. held k.engine k.users k.journal k.failed };

    ghost invariant = { λ k. k.failed ≡ false → AreKept J.rows k.engine k.journal };
}

impl<T: Marked + Drop, S: Store + Drop, J: Journal + Drop> Kept<T, S, J> {
    /// A server of which nothing was shown yet, and its journal, which keeps from now on by what access its buffers may be shown.
    /// The deeds of each byte are recorded, to be told. `JournalFault`: it did not take that, it keeps more than 256 buffers, or memory was
    /// refused.
    pub fn new(
        alloc: Global,
        mut engine: Engine<T, S>,
        mut journal: J,
    ) -> Result<Kept<T, S, J>, JournalFault>
        ensures serving { IfOk result (λ k. k.serving ≡ recording engine) }
        ensures kept { IfOk result (λ k. AreKept J.rows k.serving k.journal) }
        ensures changed { IfOk result (λ k. HasChanged J.rows J.does None k.serving journal k.journal) }
        ensures users { IfOk result (λ k. k.users ≡ []) }
        ensures noted { IfOk result (λ k. ids_due engine ≡ [] → AreNoted k.serving k.users) }
        ensures failed { IfOk result (λ k. k.failed ≡ false) }
    {
        let Ok(room) = Room::new(alloc, ROOM) else {
            return Err(JournalFault);
        };
        let Ok(()) = engine.record_deeds() else {
            return Err(JournalFault);
        };
        keep_all(&engine, &mut journal, &None)?;
        Ok(Kept {
            engine,
            journal,
            users: Users::new(),
            round: Round::new(),
            room,
            alloc,
            failed: false,
        })
    }

    /// The journal.
    pub fn journal(&self) -> &J
        ensures { result.now ≡ self.now.journal }
    {
        &self.journal
    }

    /// Ends the server, and gives the journal back.
    pub fn into_journal(self) -> J
        ensures { result ≡ self.journal }
    {
        let Kept {
            engine: _,
            journal,
            users: _,
            round: _,
            room: _,
            alloc: _,
            failed: _,
        } = self;
        journal
    }

    /// Whether the journal failed. Nothing is shown then.
    pub fn has_failed(&self) -> bool
        ensures { result ≡ self.now.failed }
    {
        self.failed
    }
}

impl<T: Marked + Drop, S: Store + Drop, J: Journal + Drop> Sessions for Kept<T, S, J> {
    ghost use Rattle.std.specs.Prelude.{◌≡◌};
    ghost use Rattle.mgs_model.specs.Events.{is_open};
    ghost use Rattle.mgs_keep.specs.Keeping.{Keeps, ShowsKept, shown, is_shown_end};

    ghost does = { Keeps J.rows J.texts J.does J.fails };

    ghost live = { λ id s. is_open id s.serving.world };

    ghost pending = { shown };

    ghost is_ended = { is_shown_end };

    fn open(&mut self, user: &str, rows: usize, cols: usize) -> Result<SessionId, OpenFault> {
        // Each open session has a screen.
        prove!(self.engine.pending(0).len() <= usize::MAX);
        let answer = self.engine.open(user, rows, cols);
        note_opened(&mut self.users, &self.engine, answer);
        let told = opening_told(&self.engine, user, answer);
        tell(&mut self.journal, &mut self.failed, told);
        answer
    }

    fn refused(&mut self, name: &[u8], cause: Refusal) {
        let told = refused(&self.engine, name_in_bytes(name), cause);
        tell(&mut self.journal, &mut self.failed, Some(told));
    }

    fn byte(&mut self, id: SessionId, byte: u8) -> Keyed {
        let user = self.engine.user(id);
        self.engine.clear_deeds();
        let (keyed, ruled) = self.engine.byte_told(id, byte);
        keep(
            &self.engine,
            &mut self.journal,
            &mut self.failed,
            &user,
            ruled,
        );
        tell_event(&self.engine, &mut self.journal, &mut self.failed, &user);
        let saved = saved_by(self.engine.echo(id));
        self.round.type_on(ruled);
        keep_saved(
            self.alloc,
            &self.engine,
            &mut self.journal,
            &mut self.failed,
            &mut self.room,
            saved,
        );
        keyed
    }

    fn close(&mut self, id: SessionId) {
        self.engine.close(id);
    }

    fn is_open(&self, id: SessionId) -> bool {
        self.engine.is_open(id)
    }

    // What a terminal is shown is drawn by access that is kept.
    fn pending(&self, id: SessionId) -> &[u8]
        ensures value { result.now ≡ shown id self.now }
        ensures kept { ShowsKept J.rows self.now result.now }
    {
        if self.failed {
            return &[];
        }
        self.engine.pending(id)
    }

    fn took(&mut self, id: SessionId, n: usize) {
        self.engine.took(id, n);
    }

    // Nobody is due once the journal failed.
    fn next_due(&self, after: SessionId) -> Option<SessionId> {
        if self.failed {
            return None;
        }
        self.engine.next_due(after)
    }
}

// Whose the session is that was opened.
fn note_opened<T: Marked + Drop, S: Store + Drop>(
    users: &mut Users,
    engine: &Engine<T, S>,
    answer: Result<SessionId, OpenFault>,
)
    ensures { (user : List ℕ) (rows cols : ℕ) → users.new ≡ noted_after (Open user rows cols answer) engine.now users.old }
{
    match answer {
        Ok(id) => users.note(id, engine.user(id)),
        Err(_) => {}
    }
}

// The buffer that was saved, if an echo line tells that.
fn saved_by(message: Message) -> Option<Name> {
    match message {
        Message::Wrote(name) => Some(name),
        _ => None,
    }
}

// Tells the journal of each session that ended, whose it was and why.
fn tell_all<T: Marked + Drop, S: Store + Drop, J: Journal>(
    engine: &mut Engine<T, S>,
    journal: &mut J,
    users: &mut Users,
    failed: &mut bool,
)
    ensures engine { engine.new ≡ record engine.old { ended = [] } }
    ensures users { users.new ≡ noted_left users.old engine.old.ended }
    ensures kept { failed.new ≡ false → J.rows journal.new ≡ J.rows journal.old }
    ensures journal { OrFails J.fails (WereTold J.does (ends_told users.old engine.old.ended)) failed.old journal.old failed.new journal.new }
{
    while let Some((id, cause)) = engine.ended() {
        let ended = users.take(id, cause);
        tell(journal, failed, ended);
    }
}

impl<T: Marked + Drop, S: Store + Drop, J: Journal + Drop> Served for Kept<T, S, J> {
    ghost use Rattle.mgs_keep.specs.Keeping.{HasRun, HasTold};

    ghost tells = { HasTold J.rows J.texts J.does J.fails };

    ghost runs = { HasRun };

    fn tell_ended(&mut self) {
        tell_all(
            &mut self.engine,
            &mut self.journal,
            &mut self.users,
            &mut self.failed,
        );
        keep_next(
            self.alloc,
            &self.engine,
            &mut self.journal,
            &mut self.failed,
            &mut self.round,
            &mut self.room,
        );
        tick(&mut self.journal, &mut self.failed);
    }
}
