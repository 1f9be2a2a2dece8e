// Whose sessions are, until their end is told.
ghost use Rattle.std.specs.Prelude.{◌≡◌, ◌<◌, [], IfSome, find, length, position};
ghost use Rattle.mgs_model.specs.Apply.{remove_first};
ghost use Rattle.mgs_keep.specs.Ends.{end_noted, end_of, is_noted, noted};

use arrayvec::ArrayVec;
use mgs_engine::Cause;
use mgs_journal::Told;
use mgs_model::{Name, SESSION_LIMIT, SessionId};
use std::marker::Model;

/// Whose a session is.
#[derive(Clone, Copy, Default)]
struct Noted {
    id: SessionId,
    user: Option<Name>,
}

/// Whose sessions are, by their ids: of 64 at most.
#[derive(Drop)]
pub(crate) struct Users {
    all: ArrayVec<Noted, SESSION_LIMIT>,
}

impl Model for Users {
    ghost use Rattle.std.specs.Prelude.{List};
    ghost use Rattle.mgs_keep.specs.declared.session_users.Noted.{Noted};

    ghost Value = { List Noted };

    ghost view = { λ u. u.all.items };
}

// What is told of the end of a user's session.
fn end_of(user: Name, cause: Cause) -> Told
    ensures { result ≡ end_of user cause }
{
    match cause {
        Cause::Quit => Told::Quit(user),
        Cause::Closed => Told::Closed(user),
        Cause::Slow => Told::FellBehind(user),
    }
}

// The place of what is noted of a session, if anything is.
fn place_noted(all: &[Noted], id: SessionId) -> Option<usize>
    ensures value { result ≡ position (is_noted id) all.now }
    ensures within { IfSome result (λ at. at < length all.now) }
{
    all.iter().position(|noted| noted.id == id)
}

// Takes out what is noted of a session, if anything is.
#[tactic(auto, using(crate::proofs::Places::found_at, crate::proofs::Places::left_at, crate::proofs::Places::found_none, crate::proofs::Places::left_none))]
fn take_noted(all: &mut ArrayVec<Noted, SESSION_LIMIT>, id: SessionId) -> Option<Noted>
    ensures found { result ≡ find (is_noted id) all.old.items }
    ensures left { all.new.items ≡ remove_first (is_noted id) all.old.items }
{
    let at = place_noted(all.as_slice(), id)?;
    Some(all.remove(at))
}

impl Users {
    /// Nobody's.
    pub(crate) fn new() -> Users
        ensures { result ≡ [] }
    {
        Users {
            all: ArrayVec::new(),
        }
    }

    /// A session is of this user. Past 64 it is not noted.
    pub(crate) fn note(&mut self, id: SessionId, user: Option<Name>)
        ensures { self.new ≡ noted id user self.old }
    {
        if self.all.len() < SESSION_LIMIT {
            self.all.push(Noted { id, user });
        }
    }

    /// What is told of the end of a session, which is forgotten by that. `None` where it was not noted.
    pub(crate) fn take(&mut self, id: SessionId, cause: Cause) -> Option<Told>
        ensures told { result ≡ end_noted (find (is_noted id) self.old) cause }
        ensures left { self.new ≡ remove_first (is_noted id) self.old }
    {
        let user = take_noted(&mut self.all, id)?.user?;
        Some(end_of(user, cause))
    }
}
