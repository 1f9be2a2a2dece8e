// Reads and writes connections.
ghost use Rattle.std.specs.Prelude.{◌≡◌, ◌<◌, ◌≤◌, length, take, false};
ghost use Rattle.mgs_model.specs.declared.limits.TheConstants.{READ_LIMIT};
ghost use Rattle.std.specs.Io.{ReadsAtMost};
ghost use Rattle.std.specs.Io.KnownBytes.{Appends};
ghost use Rattle.std.specs.IoError.{error_kind};
ghost use Rattle.mgs_wire.specs.Connections.{is_reading};
ghost use Rattle.mgs_wire.specs.Pumps.{PumpsIn, Finishes, Hears, IsCount, PumpsOut, Put, PutsOut, StopsBy};

use crate::conn::Conn;
use crate::sessions::Sessions;
use crate::stream::Stream;
use mgs_model::{READ_LIMIT, Tickets};
use std::io::{self, Error, ErrorKind, Read};

/// What a call of `pump_in` did.
#[derive(Clone, Copy, PartialEq, Eq)]
pub enum PumpedIn {
    /// So many bytes were read, 1 to 4,096.
    Took(usize),
    /// Nothing is there to be read yet.
    Idle,
    /// Nothing more is read: the reader is at its end, the login was refused, or the session is over.
    Finished,
    /// Reading failed. The connection is over.
    Failed,
}

/// What a call of `pump_out` did.
#[derive(Clone, Copy, PartialEq, Eq)]
pub enum PumpedOut {
    /// All that waited was written.
    Drained,
    /// No more can be written yet.
    Blocked,
    /// Writing failed. The connection is over.
    Failed,
}

// What one read of a connection came to: the bytes that it gave are handed on, and its end or a failure ends the connection.
fn hear<E: Sessions>(
    conn: &mut Conn,
    engine: &mut E,
    tickets: &Tickets,
    read: io::Result<usize>,
    buf: &[u8],
) -> PumpedIn
    requires { ReadsAtMost read buf.now }
    ensures { Hears E.does E.live tickets.now read buf.now result conn.old engine.old conn.new engine.new }
{
    match read {
        Ok(0) => {
            conn.end(engine);
            PumpedIn::Finished
        }
        Ok(n) => {
            conn.receive(engine, tickets, &buf[..n]);
            PumpedIn::Took(n)
        }
        Err(e) if e.kind() == ErrorKind::WouldBlock => PumpedIn::Idle,
        Err(_) => {
            conn.break_off(engine);
            PumpedIn::Failed
        }
    }
}

/// Reads once from a connection, at most 4,096 bytes, and hands them on: a login line, then each byte to the session that it
/// opened.
///
/// The login line is `login NAME TICKET ROWS COLS` and a line feed, its words parted by one space; a carriage return before the
/// line feed is no part of it. NAME and TICKET are any bytes but spaces, at least one; ROWS and COLS are numbers of 1 to 3
/// digits without leading zeros. A login is refused, in this order, as [`Refusal`](crate::Refusal) says; what was read after
/// a refused line is dropped, and its answer waits for `pump_out`. A 129th byte that is no line feed is refused at once, and so
/// is an end of the reader within the line. Bytes after the line of a login that succeeds are the session's first.
///
/// Answers: `Took` how many bytes were read; those after the end of the session are dropped. `Idle`: the reader would block,
/// and nothing has changed. `Finished`: the reader is at its end, or the session was not open any more when the call came, or
/// the connection had been refused or was over. `Failed`: any other error of the reader. At `Finished` and `Failed` the session
/// is closed, and each later call reads nothing and answers `Finished`.
pub fn pump_in<E: Sessions, R: Read>(
    conn: &mut Conn,
    engine: &mut E,
    tickets: &Tickets,
    reader: &mut R,
) -> PumpedIn
    ensures read { PumpsIn E.does E.live tickets.now result (R.remaining reader.old) (R.remaining reader.new) conn.old engine.old conn.new engine.new }
    ensures finished { Finishes E.live result conn.old engine.old conn.new engine.new }
    ensures unread { is_reading E.live conn.old engine.old ≡ false → reader.new ≡ reader.old }
{
    let mut buf = [0u8; READ_LIMIT];
    pump_in_by(conn, engine, tickets, reader, &mut buf)
}

/// Does as [`pump_in`] by a buffer of at least one byte and at most 4,096: it reads no more than that takes.
pub fn pump_in_by<E: Sessions, R: Read>(
    conn: &mut Conn,
    engine: &mut E,
    tickets: &Tickets,
    reader: &mut R,
    buf: &mut [u8],
) -> PumpedIn
    requires some { 1 ≤ length buf.old }
    requires limit { length buf.old ≤ READ_LIMIT }
    ensures read { PumpsIn E.does E.live tickets.now result (R.remaining reader.old) (R.remaining reader.new) conn.old engine.old conn.new engine.new }
    ensures finished { Finishes E.live result conn.old engine.old conn.new engine.new }
    ensures unread { is_reading E.live conn.old engine.old ≡ false → reader.new ≡ reader.old }
{
    if conn.is_finished(engine) {
        return PumpedIn::Finished;
    }
    let read = reader.read(buf);
    hear(conn, engine, tickets, read, buf)
}

// How a writing ends by an error of the writer.
fn stop_of(error: &Error) -> PumpedOut
    ensures { StopsBy (error_kind error.now) result }
{
    if error.kind() == ErrorKind::WouldBlock {
        PumpedOut::Blocked
    } else {
        PumpedOut::Failed
    }
}

// Writes bytes as far as the writer takes them: how many, and how it ended.
fn write_some<W: Stream>(writer: &mut W, bytes: &[u8]) -> (usize, PumpedOut)
    ensures counted { IsCount result.1 result.0 (length bytes.now) }
    ensures written { Appends (W.contents writer.old) (W.contents writer.new) (take result.0 bytes.now) }
    ensures put { Put W.answers bytes.now result.1 result.0 writer.old writer.new }
{
    let mut count = 0;
    while count < bytes.len() {
        match writer.put(&bytes[count..]) {
            Ok(0) => return (count, PumpedOut::Failed),
            Ok(n) => count += n,
            Err(e) => return (count, stop_of(&e)),
        }
    }
    (count, PumpedOut::Drained)
}

/// Writes what waits for a connection's terminal, as far as the writer takes it: the bytes of its session, or the line of its
/// refused login. What was written waits no longer; the rest stays, in its order, for the next call.
///
/// Answers: `Drained`: nothing waits any more; a refused connection is then over. `Blocked`: the writer would block. `Failed`: any
/// other error of the writer, or it took 0 bytes; the session is closed, and the connection is over.
pub fn pump_out<E: Sessions, W: Stream>(
    conn: &mut Conn,
    engine: &mut E,
    writer: &mut W,
) -> PumpedOut
    ensures written { PumpsOut E.does E.pending result (W.contents writer.old) (W.contents writer.new) conn.old engine.old conn.new engine.new }
    ensures put { PutsOut E.does E.pending W.answers result conn.old engine.old writer.old conn.new engine.new writer.new }
{
    let (count, outcome) = write_some(writer, conn.waiting(engine));
    conn.wrote(engine, count);
    if outcome == PumpedOut::Failed {
        conn.break_off(engine);
    }
    outcome
}
