// What is still to be done in an event: a byte that was typed, all further replacements, or what is left of a macro that is played.
ghost use Rattle.std.specs.Prelude.{◌≡◌, ◌≤◌, [], ◌∷◌, true, length, IfSome, IsNone};
ghost use Rattle.mgs_model.specs.Acts.{without_all};
ghost use Rattle.mgs_model.specs.World.{Play};
ghost use Rattle.mgs_session.specs.Playing.{IsNext, are_behind, are_played, byte_typed, called, replacing_all, is_nothing, left_of, nothing_played, rounds, stopped};

use arrayvec::ArrayVec;
use mgs_model::MACRO_LIMIT;
use std::marker::Model;

/// What comes next in an event.
#[derive(Clone, Copy)]
pub enum Pending {
    /// A byte that was typed.
    Typed(u8),
    /// A byte of a macro.
    Played(u8),
    /// A byte of a macro of whose play no act was done so far.
    First(u8),
    /// A play ends of which no act was done.
    End,
    /// One of all further replacements, which go on.
    Replacement,
    /// The same, in a play of which no act was done so far.
    FirstReplacement,
    /// The event is done.
    Nothing,
}

/// The rest of a round, from a byte on, and rounds behind it.
#[derive(Clone, Copy)]
struct Left {
    at: usize,
    rounds: usize,
}

/// The first byte of the rounds that are left, and what is left behind it.
fn next_round(bytes: &[u8], times: usize) -> Option<(u8, Left)>
    ensures none { IsNone result → rounds times bytes.now ≡ [] }
    ensures some { IfSome result (λ next. rounds times bytes.now ≡ next.0 ∷ left_of bytes.now next.1.at next.1.rounds) }
{
    if times == 0 {
        return None;
    }
    if bytes.is_empty() {
        return None;
    }
    let behind = Left {
        at: 1,
        rounds: times - 1,
    };
    Some((bytes[0], behind))
}

/// The next byte, and what is left behind it.
fn next_of(bytes: &[u8], left: Left) -> Option<(u8, Left)>
    ensures none { IsNone result → left_of bytes.now left.at left.rounds ≡ [] }
    ensures some { IfSome result (λ next. left_of bytes.now left.at left.rounds ≡ next.0 ∷ left_of bytes.now next.1.at next.1.rounds) }
{
    if left.at < bytes.len() {
        let behind = Left {
            at: left.at + 1,
            rounds: left.rounds,
        };
        return Some((bytes[left.at], behind));
    }
    next_round(bytes, left.rounds)
}

/// What a session has still to do in an event, and whether the byte that is handled is a macro's. A macro that is played has at most
/// 512 bytes. It has fixed room, and takes no memory.
#[derive(Drop)]
pub struct Player {
    typed: Option<u8>,
    begins: bool,
    replaces_all: bool,
    bytes: ArrayVec<u8, MACRO_LIMIT>,
    left: Left,
    is_playing: bool,
}

impl Model for Player {
    ghost use Rattle.mgs_session.specs.Playing.{Playing, left_of, todo_in};

    ghost Value = { Playing };

    ghost view = { λ p. record { playing = p.is_playing; todo = todo_in p.typed p.begins p.replaces_all (left_of p.bytes.items p.left.at p.left.rounds) } };
}

/// Puts these bytes in the place of all.
fn put_bytes(bytes: &mut ArrayVec<u8, MACRO_LIMIT>, played: &[u8])
    requires { length played.now ≤ 512 }
    ensures { bytes.new.items ≡ played.now }
{
    bytes.clear();
    let _extended = bytes.try_extend_from_slice(played);
}

impl Player {
    /// One that has nothing to do.
    pub fn new() -> Player
        ensures { result ≡ nothing_played }
    {
        Player {
            typed: None,
            begins: false,
            replaces_all: false,
            bytes: ArrayVec::new(),
            left: Left { at: 0, rounds: 0 },
            is_playing: false,
        }
    }

    /// Whether the byte that is handled is a macro's.
    pub fn is_playing(&self) -> bool
        ensures { result ≡ self.now.playing }
    {
        self.is_playing
    }

    /// Whether nothing more is to be done.
    pub fn is_done(&self) -> bool
        ensures { result ≡ is_nothing self.now.todo }
    {
        if self.typed.is_some() || self.begins || self.replaces_all {
            return false;
        }
        match next_of(self.bytes.as_slice(), self.left) {
            Some(_) => false,
            None => true,
        }
    }

    /// A byte was typed, which is to be handled.
    pub fn type_byte(&mut self, byte: u8)
        ensures { self.new ≡ byte_typed byte self.old }
    {
        self.typed = Some(byte);
    }

    /// These bytes are to be played so many times.
    pub fn call(&mut self, bytes: &[u8], times: usize)
        requires { length bytes.now ≤ 512 }
        ensures { self.new ≡ called times bytes.now self.old }
    {
        put_bytes(&mut self.bytes, bytes);
        self.left = Left {
            at: bytes.len(),
            rounds: times,
        };
        self.typed = None;
        self.begins = true;
        self.replaces_all = false;
    }

    /// Nothing more is to be done.
    pub fn stop(&mut self)
        ensures { self.new ≡ stopped self.old }
    {
        self.typed = None;
        self.begins = false;
        self.replaces_all = false;
        self.bytes.clear();
        self.left = Left { at: 0, rounds: 0 };
    }

    /// All further matches are to be replaced, before what is left of a macro.
    #[tactic(auto, using(crate::proofs::Rounds::replaced_all))]
    pub fn replace_all(&mut self)
        requires { are_played self.old.todo ≡ true }
        ensures { self.new ≡ replacing_all self.old }
    {
        self.replaces_all = true;
    }

    /// No further match is to be replaced.
    #[tactic(auto, using(crate::proofs::Rounds::none_replaced))]
    pub fn end_replacing(&mut self)
        ensures { self.new ≡ record self.old { todo = without_all self.old.todo } }
    {
        self.replaces_all = false;
    }

    /// A byte that was typed is handled, or a macro's.
    pub fn set_playing(&mut self, is_playing: bool)
        ensures { self.new ≡ record self.old { playing = is_playing } }
    {
        self.is_playing = is_playing;
    }

    /// What is left of a play begins it again: none of its acts was done.
    #[tactic(auto, using(crate::proofs::Rounds::begins_again))]
    pub fn begin_again(&mut self)
        requires { are_behind self.old.todo ≡ true }
        ensures { self.new ≡ record self.old { todo = Play ∷ self.old.todo } }
    {
        self.begins = true;
    }

    /// Takes what comes next, which is handled now.
    #[tactic(auto, using(crate::proofs::Rounds::played_all))]
    pub fn next(&mut self) -> Pending
        ensures { IsNext result self.old self.new }
    {
        if let Some(byte) = self.typed {
            self.stop();
            self.is_playing = false;
            return Pending::Typed(byte);
        }
        if self.replaces_all {
            if self.begins {
                return Pending::FirstReplacement;
            }
            return Pending::Replacement;
        }
        let begins = self.begins;
        self.begins = false;
        match next_of(self.bytes.as_slice(), self.left) {
            Some((byte, left)) => {
                self.left = left;
                self.is_playing = true;
                if begins {
                    Pending::First(byte)
                } else {
                    Pending::Played(byte)
                }
            }
            None => {
                if begins {
                    Pending::End
                } else {
                    Pending::Nothing
                }
            }
        }
    }
}
