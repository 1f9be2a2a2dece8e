// What a journal is told.
ghost use Rattle.std.specs.Prelude.{◌≡◌, ◌∷◌, [], None, Some, false, ℕ};
ghost use Rattle.std.specs.Option.{option_map};
ghost use Rattle.mgs_journal.specs.Acts.{Tick, AreDone};
ghost use Rattle.mgs_keep.specs.Ends.{listed};
ghost use Rattle.mgs_keep.specs.Keeping.{OrFails, WereTold, all_told, came, deed_told, event_told, name_in_bytes, name_in_text, refused, told_of, user_among};
ghost use Rattle.mgs_wire.specs.Calls.{Open};

use mgs_births::Deed;
use mgs_engine::Engine;
use mgs_journal::{Journal, JournalFault, Told};
use mgs_keys::utf8;
use mgs_marks::Marked;
use mgs_model::{Name, OpenFault, SessionId};
use mgs_store::Store;
use mgs_wire::Refusal;

/// Hands to the journal what is told, if anything is and it did not fail.
pub(crate) fn tell<J: Journal>(journal: &mut J, failed: &mut bool, told: Option<Told>)
    ensures kept { failed.new ≡ false → J.rows journal.new ≡ J.rows journal.old }
    ensures journal { OrFails J.fails (WereTold J.does (listed told)) failed.old journal.old failed.new journal.new }
{
    if *failed {
        return;
    }
    match told {
        None => {}
        Some(told) => match journal.tell(told) {
            Ok(()) => {}
            Err(JournalFault) => *failed = true,
        },
    }
}

/// Has the journal keep what it gathered for long enough, if it did not fail.
pub(crate) fn tick<J: Journal>(journal: &mut J, failed: &mut bool)
    ensures kept { failed.new ≡ false → J.rows journal.new ≡ J.rows journal.old }
    ensures journal { OrFails J.fails (AreDone J.does (Tick ∷ [])) failed.old journal.old failed.new journal.new }
{
    if *failed {
        return;
    }
    match journal.tick() {
        Ok(()) => {}
        Err(JournalFault) => *failed = true,
    }
}

// A session of a user was opened.
fn came(user: Option<Name>) -> Option<Told>
    ensures { result ≡ came user }
{
    match user {
        Some(user) => Some(Told::Came(user)),
        None => None,
    }
}

// The name that a text is, if it is one.
#[tactic(auto, using(crate::proofs::Sayings::read_is))]
fn name_in_text(text: &str) -> Option<Name>
    ensures { result ≡ name_in_text text.now }
{
    Name::read(text)
}

/// The name that bytes are, if they are one.
pub(crate) fn name_in_bytes(bytes: &[u8]) -> Option<Name>
    ensures { result ≡ name_in_bytes bytes.now }
{
    match utf8(bytes) {
        Some(text) => name_in_text(text),
        None => None,
    }
}

// The name, if a user has it: what was typed in the place of a name can be a ticket.
fn user_among<T: Marked + Drop, S: Store + Drop>(
    engine: &Engine<T, S>,
    name: Option<Name>,
) -> Option<Name>
    ensures { result ≡ user_among engine.now.world.directory.users name }
{
    match name {
        None => None,
        Some(name) => {
            if engine.has_user(&name) {
                Some(name)
            } else {
                None
            }
        }
    }
}

/// A login was refused, by the name of a user or by none.
pub(crate) fn refused<T: Marked + Drop, S: Store + Drop>(
    engine: &Engine<T, S>,
    name: Option<Name>,
    cause: Refusal,
) -> Told
    ensures { result ≡ refused (user_among engine.now.world.directory.users name) cause }
{
    match user_among(engine, name) {
        Some(name) => Told::Refused(name, cause),
        None => Told::RefusedUnnamed(cause),
    }
}

/// What is told of an opening, by its answer.
pub(crate) fn opening_told<T: Marked + Drop, S: Store + Drop>(
    engine: &Engine<T, S>,
    user: &str,
    answer: Result<SessionId, OpenFault>,
) -> Option<Told>
    ensures { (rows cols : ℕ) → listed result ≡ told_of None (Open user.now rows cols answer) engine.now }
{
    match answer {
        Ok(id) => came(engine.user(id)),
        Err(fault) => Some(refused(engine, name_in_text(user), Refusal::of(fault))),
    }
}

// What is told of a deed of a user's event, if anything is.
fn deed_told(user: Name, deed: &Deed) -> Option<Told>
    ensures { result ≡ deed_told user deed.now }
{
    match deed {
        Deed::Denied(buffer, decision) => Some(Told::Denied(user, *buffer, *decision)),
        Deed::Saved(buffer) => Some(Told::Saved(user, *buffer)),
        _ => None,
    }
}

// Tells the journal of deeds of a user's event, one after another.
fn tell_each<J: Journal>(journal: &mut J, failed: &mut bool, user: Name, deeds: &[Deed])
    ensures kept { failed.new ≡ false → J.rows journal.new ≡ J.rows journal.old }
    ensures journal { OrFails J.fails (WereTold J.does (all_told user deeds.now)) failed.old journal.old failed.new journal.new }
{
    for deed in deeds {
        tell(journal, failed, deed_told(user, deed));
    }
}

// Tells the journal of all deeds of a user's event, or that there were too many.
fn tell_some<J: Journal>(journal: &mut J, failed: &mut bool, user: Name, deeds: Option<&[Deed]>)
    ensures kept { failed.new ≡ false → J.rows journal.new ≡ J.rows journal.old }
    ensures journal { OrFails J.fails (WereTold J.does (event_told (Some user) (option_map (λ ds. ds.now) deeds.entry))) failed.old journal.old failed.new journal.new }
{
    match deeds {
        Some(deeds) => tell_each(journal, failed, user, deeds),
        None => tell(journal, failed, Some(Told::Crowded(user))),
    }
}

/// Tells the journal what was denied by the last event and which buffers it saved, in the order of its acts, if it was a user's.
pub(crate) fn tell_event<T: Marked + Drop, S: Store + Drop, J: Journal>(
    engine: &Engine<T, S>,
    journal: &mut J,
    failed: &mut bool,
    user: &Option<Name>,
)
    ensures kept { failed.new ≡ false → J.rows journal.new ≡ J.rows journal.old }
    ensures journal { OrFails J.fails (WereTold J.does (event_told user.now engine.now.store.tape.deeds)) failed.old journal.old failed.new journal.new }
{
    if let Some(user) = user {
        tell_some(journal, failed, *user, engine.deeds());
    }
}
