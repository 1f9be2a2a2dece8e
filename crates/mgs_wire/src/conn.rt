// Connections.
ghost use Rattle.std.specs.Prelude.{◌≡◌, ◌++◌, ◌≤◌, true, false, not, [], length, vec_capacity, IfOk};
ghost use Rattle.mgs_wire.specs.Login.{admission, name_in};
ghost use Rattle.mgs_wire.specs.Calls.{Typed};
ghost use Rattle.mgs_wire.specs.declared.refusal.Refusal.TheVariants.{Line};
ghost use Rattle.mgs_wire.specs.Connections.{Connection, Logging_in, refused, TurnsAway, EntersBy, ReadsLogin, Receives, is_logging_in, is_over, is_reading, session_of, stopped, Ends, Breaks, waiting, Writes};
ghost use Rattle.mgs_wire.specs.Stages.{connection, IsStage, LogsIn};
ghost use Rattle.mgs_wire.specs.LinesRead.{IsLoginLine};

use crate::line::{LineRead, append, drop_front, read_line};
use crate::login::{LOGIN_LIMIT, admission, name_in};
use crate::refusal::Refusal;
use crate::sessions::Sessions;
use mgs_model::{SessionId, Short, Tickets};
use std::alloc::Global;
use std::marker::Model;

/// How far a connection is.
#[derive(Clone, Copy)]
pub(crate) enum Stage {
    /// Its login line is read.
    Login,
    /// Its bytes are a session's.
    Session(SessionId),
    /// Its login was refused, and the line that tells of it is written.
    Refused,
    /// Nothing more is read or written. The session is the one that it had.
    Over(Option<SessionId>),
}

/// A connection: its login line, then its session.
#[derive(Drop)]
pub struct Conn {
    // The login line as far as it was read, or what is still to be written of the line of a refusal.
    line: Vec<u8>,
    stage: Stage,
}

impl Model for Conn {
    ghost use Rattle.std.specs.Prelude.{◌≤◌, vec_capacity};
    ghost use Rattle.mgs_wire.specs.Connections.{Connection};

    ghost Value = { Connection };

    ghost use Rattle.mgs_wire.specs.declared.login.TheConstants.{LOGIN_LIMIT};
    ghost use Rattle.mgs_wire.specs.Stages.{connection, IsStage};

    ghost view = { λ c. connection c.stage c.line.items };

    ghost invariant = { λ c. (LOGIN_LIMIT ≤ vec_capacity c.line) × IsStage c.stage c.line.items };
}

// The line that tells of a refusal, in place of what was there.
fn refuse(line: &mut Vec<u8>, refusal: Refusal) -> Stage
    requires { LOGIN_LIMIT ≤ vec_capacity line.old }
    ensures stage { connection result line.new.items ≡ refused refusal }
    ensures form { IsStage result line.new.items }
    ensures room { LOGIN_LIMIT ≤ vec_capacity line.new }
{
    line.clear();
    append(line, refusal.line());
    Stage::Refused
}

// A login line is too long, or its reader ended within it.
fn turn_away<E: Sessions>(line: &mut Vec<u8>, engine: &mut E) -> Stage
    requires { LOGIN_LIMIT ≤ vec_capacity line.old }
    ensures away { TurnsAway E.does [] Line engine.old (connection result line.new.items) engine.new }
    ensures form { IsStage result line.new.items }
    ensures room { LOGIN_LIMIT ≤ vec_capacity line.new }
{
    engine.refused(&[], Refusal::Line);
    refuse(line, Refusal::Line)
}

// Hands bytes to a session, one call each, while it is open.
#[tactic(auto, using(crate::proofs::Typing::shut))]
fn type_all<E: Sessions>(engine: &mut E, id: SessionId, bytes: &[u8])
    ensures { Typed E.does E.live id bytes.now engine.old engine.new }
{
    for byte in bytes {
        if !engine.is_open(id) {
            return;
        }
        engine.byte(id, *byte);
    }
}

// Opens the session of a login line, where that is to be done.
fn log_in<E: Sessions>(engine: &mut E, tickets: &Tickets, line: &[u8]) -> Result<SessionId, Refusal>
    ensures { LogsIn E.does (name_in line.now) (admission tickets.now line.now) result engine.old engine.new }
{
    let opening = match admission(tickets, line) {
        Ok(opening) => opening,
        Err(refusal) => {
            engine.refused(name_in(line), refusal);
            return Err(refusal);
        }
    };
    match engine.open(opening.user, opening.rows, opening.cols) {
        Ok(id) => Ok(id),
        Err(fault) => Err(Refusal::of(fault)),
    }
}

// A login line is whole: its session, and the bytes after it.
fn enter<E: Sessions>(line: &mut Vec<u8>, engine: &mut E, tickets: &Tickets, rest: &[u8]) -> Stage
    requires { LOGIN_LIMIT ≤ vec_capacity line.old }
    ensures enters { EntersBy E.does E.live tickets.now line.old.items rest.now engine.old (connection result line.new.items) engine.new }
    ensures form { IsStage result line.new.items }
    ensures room { LOGIN_LIMIT ≤ vec_capacity line.new }
{
    match log_in(engine, tickets, line) {
        Ok(id) => {
            type_all(engine, id, rest);
            Stage::Session(id)
        }
        Err(refusal) => refuse(line, refusal),
    }
}

// More bytes of a login line.
fn log_in_by<E: Sessions>(
    line: &mut Vec<u8>,
    engine: &mut E,
    tickets: &Tickets,
    bytes: &[u8],
) -> Stage
    requires line { IsLoginLine line.old.items }
    requires room { LOGIN_LIMIT ≤ vec_capacity line.old }
    ensures logs_in { ReadsLogin E.does E.live tickets.now (line.old.items ++ bytes.now) engine.old (connection result line.new.items) engine.new }
    ensures form { IsStage result line.new.items }
    ensures room { LOGIN_LIMIT ≤ vec_capacity line.new }
{
    match read_line(line, bytes) {
        LineRead::Part => Stage::Login,
        LineRead::Whole(rest) => enter(line, engine, tickets, rest),
        LineRead::TooLong => turn_away(line, engine),
    }
}

impl Conn {
    /// A connection of which nothing was read. It has the room for a login line and takes no memory later. `Short`: memory was
    /// refused.
    #[tactic(auto, unfolding(crate::specs::Login::after_line))]
    pub fn new(alloc: Global) -> Result<Conn, Short>
        ensures { IfOk result (λ c. c ≡ Logging_in []) }
    {
        match Vec::with_capacity(alloc, LOGIN_LIMIT) {
            Ok(line) => Ok(Conn {
                line,
                stage: Stage::Login,
            }),
            Err(_) => Err(Short),
        }
    }

    /// The session that the login opened, also after its end. None: no login has succeeded.
    pub fn session(&self) -> Option<SessionId>
        ensures { result ≡ session_of self.now }
    {
        match self.stage {
            Stage::Login | Stage::Refused => None,
            Stage::Session(id) => Some(id),
            Stage::Over(session) => session,
        }
    }

    /// Whether its login line has not ended yet.
    pub fn is_logging_in(&self) -> bool
        ensures { result ≡ is_logging_in self.now }
    {
        match self.stage {
            Stage::Login => true,
            Stage::Session(_) | Stage::Refused | Stage::Over(_) => false,
        }
    }

    // Whether anything is to be read.
    fn is_reading<E: Sessions>(&self, engine: &E) -> bool
        ensures { result ≡ is_reading E.live self.now engine.now }
    {
        match self.stage {
            Stage::Login => true,
            Stage::Session(id) => engine.is_open(id),
            Stage::Refused | Stage::Over(_) => false,
        }
    }

    // These bytes were read.
    pub(crate) fn receive<E: Sessions>(&mut self, engine: &mut E, tickets: &Tickets, bytes: &[u8])
        ensures { Receives E.does E.live tickets.now bytes.now self.old engine.old self.new engine.new }
    {
        match self.stage {
            Stage::Login => self.stage = log_in_by(&mut self.line, engine, tickets, bytes),
            Stage::Session(id) => type_all(engine, id, bytes),
            Stage::Refused | Stage::Over(_) => {}
        }
    }

    // Nothing more is read, since the session is not open.
    fn stop(&mut self)
        ensures { self.new ≡ stopped self.old }
    {
        match self.stage {
            Stage::Login => self.stage = Stage::Over(None),
            Stage::Session(id) => self.stage = Stage::Over(Some(id)),
            Stage::Refused | Stage::Over(_) => {}
        }
    }

    /// Whether nothing more is read of it: its login was refused, or its session is not open. Of one whose session is not open
    /// nothing is written from then on either.
    pub fn is_finished<E: Sessions>(&mut self, engine: &E) -> bool
        ensures answer { result ≡ not (is_reading E.live self.old engine.now) }
        ensures reading { is_reading E.live self.old engine.now ≡ true → self.new ≡ self.old }
        ensures stopped { is_reading E.live self.old engine.now ≡ false → self.new ≡ stopped self.old }
    {
        if self.is_reading(engine) {
            return false;
        }
        self.stop();
        true
    }

    /// Whether it is done with: nothing more is read of it, and nothing waits to be written to it. So it is once the line of a
    /// refused login was written, once reading or writing failed, and once it was found that its session is not open.
    pub fn is_over(&self) -> bool
        ensures { result ≡ is_over self.now }
    {
        match self.stage {
            Stage::Login | Stage::Session(_) => false,
            Stage::Refused => self.line.is_empty(),
            Stage::Over(_) => true,
        }
    }

    // The reader is at its end.
    pub(crate) fn end<E: Sessions>(&mut self, engine: &mut E)
        ensures { Ends E.does self.old engine.old self.new engine.new }
    {
        match self.stage {
            Stage::Login => self.stage = turn_away(&mut self.line, engine),
            Stage::Session(id) => {
                engine.close(id);
                self.stage = Stage::Over(Some(id));
            }
            Stage::Refused | Stage::Over(_) => {}
        }
    }

    /// Ends it as where reading or writing failed: its session is closed, and nothing more is read or written.
    pub fn break_off<E: Sessions>(&mut self, engine: &mut E)
        ensures { Breaks E.does self.old engine.old self.new engine.new }
    {
        match self.stage {
            Stage::Login | Stage::Refused => self.stage = Stage::Over(None),
            Stage::Session(id) => {
                engine.close(id);
                self.stage = Stage::Over(Some(id));
            }
            Stage::Over(_) => {}
        }
    }

    // The bytes that wait to be written.
    pub(crate) fn waiting<'a, E: Sessions>(&'a self, engine: &'a E) -> &'a [u8]
        ensures { result.now ≡ waiting E.pending self.now engine.now }
    {
        match self.stage {
            Stage::Login | Stage::Over(_) => &[],
            Stage::Session(id) => engine.pending(id),
            Stage::Refused => &self.line,
        }
    }

    // The first `n` of the bytes that waited were written.
    pub(crate) fn wrote<E: Sessions>(&mut self, engine: &mut E, n: usize)
        requires { n ≤ length (waiting E.pending self.old engine.old) }
        ensures { Writes E.does n self.old engine.old self.new engine.new }
    {
        match self.stage {
            Stage::Session(id) => engine.took(id, n),
            Stage::Refused => drop_front(&mut self.line, n),
            Stage::Login | Stage::Over(_) => {}
        }
    }
}
