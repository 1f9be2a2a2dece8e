// What connections ask of a server.
use crate::refusal::Refusal;
use mgs_model::{Keyed, OpenFault, SessionId};

/// A server with sessions, as connections see it: an engine.
///
/// Each call is one event, or takes bytes that were written. What a call may do is the server's own word, `does`.
pub trait Sessions {
    ghost use Rattle.std.specs.Prelude.{◌≡◌, ℕ, ◌≤◌, Bool, List, length};
    ghost use Rattle.std.specs.Prelude.{◌<◌, IfSome};
    ghost use Rattle.mgs_wire.specs.Calls.{Call, Open, Refuse, Byte, Close, Took, PassesNone, PassesNoEnd};

    // The call may lead from one state to another, with its answer.
    ghost does: { Self → Call → Self → Type 0 };

    // Whether a session is open.
    ghost live: { ℕ → Self → Bool };

    // The bytes that wait for a session's terminal.
    ghost pending: { ℕ → Self → List ℕ };

    // Whether a session ended and is to be told.
    ghost is_ended: { ℕ → Self → Bool };

    /// Opens a session of a user, whose terminal has so many rows and columns, or says why not.
    fn open(&mut self, user: &str, rows: usize, cols: usize) -> Result<SessionId, OpenFault>
        ensures { does self.old (Open user.now rows cols result) self.new };

    /// A login was refused before a session was asked for: the name that its line said, which may be any bytes and is empty where it was no
    /// login line, and why.
    fn refused(&mut self, name: &[u8], cause: Refusal)
        ensures { does self.old (Refuse name.now cause) self.new };

    /// A byte from a session's terminal.
    fn byte(&mut self, id: SessionId, byte: u8) -> Keyed
        ensures { does self.old (Byte id byte result) self.new };

    /// Closes a session.
    fn close(&mut self, id: SessionId)
        ensures { does self.old (Close id) self.new };

    /// Whether a session of that id is open.
    fn is_open(&self, id: SessionId) -> bool
        ensures { result ≡ live id self.now };

    /// The bytes that wait for the terminal of a session.
    fn pending(&self, id: SessionId) -> &[u8]
        ensures { result.now ≡ pending id self.now };

    /// Says that the first `n` of the bytes that wait for a session's terminal were written to it.
    fn took(&mut self, id: SessionId, n: usize)
        requires { n ≤ length (pending id self.old) }
        ensures { does self.old (Took id n) self.new };

    /// A session above this one whose connection is to be written to, or closed: bytes wait for its terminal, or it ended. None: there is
    /// no more. For the sessions between no bytes wait, and none of them ended. This body passes over no session; a server that knows its queues has a better one.
    fn next_due(&self, after: SessionId) -> Option<SessionId>
        ensures above { IfSome result (λ id. after < id) }
        ensures passed { PassesNone pending after result self.now }
        ensures no_end { PassesNoEnd is_ended after result self.now }
    {
        after.checked_add(1)
    }
}
