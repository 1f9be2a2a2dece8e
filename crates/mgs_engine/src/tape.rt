// Calls of an engine, and the tape of what they answered.
ghost use Rattle.std.specs.Prelude.{◌≡◌, ◌≤◌, ◌++◌, ◌∷◌, [], length, OnOk, OnErr};
ghost use Rattle.std.specs.List.{position_or_len};
ghost use Rattle.mgs_engine.specs.Tapes.{IsAdded, bytes_on, has_piece_id, piece_queue, pieces_of, with_more};

use crate::session_end::Cause;
use mgs_model::{Keyed, OpenFault, SessionId, Short};
use std::alloc::Global;
use std::marker::Model;

/// A call of an engine, with its arguments.
#[derive(Clone, Copy)]
pub enum Call<'a> {
    /// Opens a session of a user, on a screen of so many rows and columns.
    Open(&'a str, usize, usize),
    /// A byte of a session.
    Byte(SessionId, u8),
    /// Closes a session.
    Close(SessionId),
    /// So many of the bytes that wait for a session are taken: where fewer wait, all of them.
    Took(SessionId, usize),
    /// The session that ended first of those that were not told yet is told.
    Ended,
}

/// What a call answered.
#[derive(Clone, Copy)]
pub enum Answer {
    /// The id of the session, or why it was not opened.
    Open(Result<SessionId, OpenFault>),
    /// What became of the byte.
    Byte(Keyed),
    /// A close has no answer.
    Close,
    /// How many bytes were taken.
    Took(usize),
    /// The session that ended, and how; `None` where each was told.
    Ended(Option<(SessionId, Cause)>),
}

/// The bytes that were taken of a session.
#[derive(Drop)]
pub(crate) struct Piece {
    /// The session.
    pub(crate) id: SessionId,
    /// Its bytes, in the order in which they were taken.
    pub(crate) bytes: Vec<u8>,
}

/// What calls answered, in their order, and the bytes that were taken of each session.
#[derive(Drop)]
pub struct Tape {
    /// Where the pieces get their memory.
    pub(crate) alloc: Global,
    /// One for each call.
    pub(crate) answers: Vec<Answer>,
    /// One for each session of which bytes were taken.
    pub(crate) pieces: Vec<Piece>,
}

impl Model for Tape {
    ghost use Rattle.mgs_engine.specs.Tapes.{Told, told_of};

    ghost Value = { Told };

    ghost view = { λ t. told_of t.answers.items t.pieces.items };
}

// The place of the first piece of an id, or how many there are where none has it.
fn piece_place(pieces: &[Piece], id: SessionId) -> usize
    ensures value { result ≡ position_or_len (has_piece_id id) pieces.now }
    ensures within { result ≤ length pieces.now }
{
    let mut at = 0;
    for piece in pieces {
        if piece.id == id {
            return at;
        }
        at += 1;
    }
    at
}

// Puts bytes behind those of a piece.
fn lengthen(piece: &mut Piece, bytes: &[u8]) -> Result<(), Short>
    ensures ok { OnOk result (piece_queue piece.new ≡ with_more bytes.now (piece_queue piece.old)) }
    ensures err { OnErr result (piece_queue piece.new ≡ piece_queue piece.old) }
{
    match piece.bytes.extend_from_slice(bytes) {
        Ok(()) => Ok(()),
        Err(_) => Err(Short),
    }
}

// A first piece of a session.
fn begin(alloc: Global, pieces: &mut Vec<Piece>, id: SessionId, bytes: &[u8]) -> Result<(), Short>
    ensures ok { OnOk result (pieces_of pieces.new.items ≡ pieces_of pieces.old.items ++ record { id = id; bytes = bytes.now } ∷ []) }
    ensures err { OnErr result (pieces_of pieces.new.items ≡ pieces_of pieces.old.items) }
{
    let Ok(bytes) = Vec::from_slice(alloc, bytes) else {
        return Err(Short);
    };
    if pieces.reserve(1).is_err() {
        return Err(Short);
    }
    pieces.push_reserved(Piece { id, bytes });
    Ok(())
}

/// Puts bytes behind those that were taken of a session. `Short`: memory was refused, and nothing changes.
pub(crate) fn add_bytes(
    alloc: Global,
    pieces: &mut Vec<Piece>,
    id: SessionId,
    bytes: &[u8],
) -> Result<(), Short>
    ensures ok { OnOk result (IsAdded id bytes.now (pieces_of pieces.old.items) (pieces_of pieces.new.items)) }
    ensures err { OnErr result (pieces_of pieces.new.items ≡ pieces_of pieces.old.items) }
{
    let at = piece_place(pieces, id);
    if at < pieces.len() {
        lengthen(&mut pieces[at], bytes)
    } else {
        begin(alloc, pieces, id, bytes)
    }
}

impl Tape {
    /// An empty tape. It takes no memory.
    pub fn new(alloc: Global) -> Tape
        ensures { result ≡ record { answers = []; pieces = [] } }
    {
        Tape {
            alloc,
            answers: Vec::new(alloc),
            pieces: Vec::new(alloc),
        }
    }

    /// What the calls answered, in their order.
    pub fn answers(&self) -> &[Answer]
        ensures { result.now ≡ self.now.answers }
    {
        self.answers.as_slice()
    }

    /// The bytes that were taken of a session: none where there are none.
    pub fn bytes(&self, id: SessionId) -> &[u8]
        ensures { result.now ≡ bytes_on id self.now }
    {
        let at = piece_place(&self.pieces, id);
        if at < self.pieces.len() {
            self.pieces[at].bytes.as_slice()
        } else {
            &[]
        }
    }
}
