// Connections: login lines, the bytes after them, and readers and writers that stop, end or fail.
use mgs_model::{Keyed, OpenFault, SessionId, Tickets};
use mgs_wire::{Conn, PumpedIn, PumpedOut, Refusal, Sessions, pump_in, pump_out};
use std::alloc::Global;
use std::io::{self, ErrorKind, Read, Write};
use std::process::Abort;
use std::test::Fail;

const LOGIN: &[u8] = b"login ann t1 6 20\n";

const REFUSED_LINE: &[u8] = b"refused 1 Line\n";

// A server with one session, 7, which the byte 3 ends.
#[derive(Drop)]
struct OneSession {
    fault: Option<OpenFault>,
    is_open: bool,
    typed: Vec<u8>,
    waiting: Vec<u8>,
}

impl Sessions for OneSession {
    ghost use Rattle.std.specs.Prelude.{false};

    ghost does = { λ _ _ _. Unit {0} };

    ghost live = { λ _ server. server.is_open };

    ghost pending = { λ _ server. server.waiting.items };

    ghost is_ended = { λ _ _. false };

    fn open(&mut self, user: &str, rows: usize, cols: usize) -> Result<SessionId, OpenFault> {
        if let Some(fault) = self.fault {
            return Err(fault);
        }
        if user != "ann" {
            return Err(OpenFault::NoUser);
        }
        if rows < 6 || cols < 20 {
            return Err(OpenFault::Size);
        }
        self.is_open = true;
        Ok(7)
    }

    fn refused(&mut self, _name: &[u8], _cause: Refusal) {}

    fn byte(&mut self, _id: SessionId, byte: u8) -> Keyed {
        if byte == 3 {
            self.is_open = false;
            return Keyed::Quit;
        }
        match self.typed.push(byte) {
            Ok(()) => Keyed::Done,
            Err(_) => Keyed::Short,
        }
    }

    fn close(&mut self, _id: SessionId) {
        self.is_open = false;
    }

    fn is_open(&self, _id: SessionId) -> bool {
        self.is_open
    }

    fn pending(&self, _id: SessionId) -> &[u8] {
        &self.waiting
    }

    fn took(&mut self, _id: SessionId, n: usize) {
        let rest = self.waiting.len() - n;
        self.waiting.rotate_left(n);
        self.waiting.truncate(rest);
    }
}

// A connection to such a server, where ann has the ticket t1. Its calls tell proofs nothing: what is looked at is what runs.
#[derive(Drop)]
struct Client {
    conn: Conn,
    server: OneSession,
    tickets: Tickets,
}

impl Client {
    fn new(alloc: Global, fault: Option<OpenFault>) -> Result<Client, Fail> {
        let mut tickets = Tickets::new(alloc);
        tickets.add("ann", "t1")?;
        Ok(Client {
            conn: Conn::new(alloc)?,
            server: OneSession {
                fault,
                is_open: false,
                typed: Vec::new(alloc),
                waiting: Vec::new(alloc),
            },
            tickets,
        })
    }

    fn read<R: Read>(&mut self, reader: &mut R) -> PumpedIn {
        pump_in(&mut self.conn, &mut self.server, &self.tickets, reader)
    }

    // Reads until nothing is taken.
    fn read_all<R: Read>(&mut self, reader: &mut R) -> PumpedIn {
        for _ in 0..1000 {
            match self.read(reader) {
                PumpedIn::Took(_) => {}
                other => return other,
            }
        }
        PumpedIn::Idle
    }

    fn write<W: Write>(&mut self, writer: &mut W) -> PumpedOut {
        pump_out(&mut self.conn, &mut self.server, writer)
    }

    fn session(&self) -> Option<SessionId> {
        self.conn.session()
    }
}

// Gives its bytes so many at a time, and then fails so.
#[derive(Drop)]
struct Pieces<'a> {
    rest: &'a [u8],
    size: usize,
    fault: ErrorKind,
}

impl Read for Pieces<'_> {
    fn read(&mut self, buf: &mut [u8]) -> io::Result<usize> {
        let n = self.rest.len().min(self.size).min(buf.len());
        if n == 0 {
            return Err(io::Error::from(self.fault));
        }
        let (now, later) = self.rest.split_at(n);
        buf[..n].copy_from_slice(now);
        self.rest = later;
        Ok(n)
    }
}

/// Takes so many bytes, and then none, or fails so.
#[derive(Drop)]
pub(crate) struct Narrow {
    /// The bytes that it took.
    pub(crate) taken: Vec<u8>,
    /// How many more it takes.
    pub(crate) room: usize,
    /// How it fails then; without one it takes none.
    pub(crate) fault: Option<ErrorKind>,
}

impl Write for Narrow {
    fn write(&mut self, buf: &[u8]) -> io::Result<usize> {
        let n = buf.len().min(self.room);
        if n == 0 {
            return match self.fault {
                None => Ok(0),
                Some(kind) => Err(io::Error::from(kind)),
            };
        }
        self.taken.extend_from_slice(&buf[..n])?;
        self.room -= n;
        Ok(n)
    }

    fn flush(&mut self) -> io::Result<()> {
        Ok(())
    }
}

// What a connection writes that reads this to its end and opens no session, where the server opens them or has this reason not to.
fn answer(
    alloc: Global,
    input: &[u8],
    fault: Option<OpenFault>,
    rt: &impl Abort,
) -> Result<Vec<u8>, Fail> {
    let mut client = Client::new(alloc, fault)?;
    let mut reader = input;
    let read = client.read_all(&mut reader);
    assert!(rt; read == PumpedIn::Finished && client.session().is_none());
    let mut written = Vec::new(alloc);
    let first = client.write(&mut written);
    let second = client.write(&mut written);
    assert!(rt; first == PumpedOut::Drained && second == PumpedOut::Drained);
    Ok(written)
}

const NO_LOGINS: [&[u8]; 12] = [
    b"login ann t1 6 2",
    b"login ann t1 06 20\n",
    b"login ann t1 6 1000\n",
    b"login ann t1 6\n",
    b"login ann t1 6 20 \n",
    b"login  ann t1 6 20\n",
    b"login ann  6 20\n",
    b"login ann t1 6 20\r\r\n",
    b"Login ann t1 6 20\n",
    b"login ann t1 6 2x\nlogin ann t1 6 20\n",
    b"\n",
    b"",
];

#[test]
fn lines_that_are_no_login_are_refused(rt: HostRuntime) -> Result<(), Fail> {
    for &line in &NO_LOGINS {
        let written = answer(rt.alloc(), line, None, &rt)?;
        assert!(rt; written.as_slice() == REFUSED_LINE);
    }
    Ok(())
}

const FULL: Option<OpenFault> = Some(OpenFault::Full);

// A line, why the server opens no session, and the answer.
const REFUSALS: [(&[u8], Option<OpenFault>, &[u8]); 7] = [
    (b"login eve t1 5 20\n", FULL, b"refused 2 NoUser\n"),
    (b"login \xFF t1 5 20\n", FULL, b"refused 2 NoUser\n"),
    (b"login ann zz 5 20\n", FULL, b"refused 3 Ticket\n"),
    (b"login ann t1 5 20\n", None, b"refused 4 Size\n"),
    (LOGIN, FULL, b"refused 5 Full\n"),
    (LOGIN, Some(OpenFault::Short), b"refused 6 Short\n"),
    (LOGIN, Some(OpenFault::NoUser), b"refused 2 NoUser\n"),
];

#[test]
fn refusals_come_in_their_order(rt: HostRuntime) -> Result<(), Fail> {
    for &(line, fault, wanted) in &REFUSALS {
        let written = answer(rt.alloc(), line, fault, &rt)?;
        assert!(rt; written.as_slice() == wanted);
    }
    Ok(())
}

// A connection that read this so many bytes at a time, until its reader failed so, and what it answered then.
fn heard(
    alloc: Global,
    input: &[u8],
    size: usize,
    fault: ErrorKind,
) -> Result<(Client, PumpedIn), Fail> {
    let mut client = Client::new(alloc, None)?;
    let mut reader = Pieces {
        rest: input,
        size,
        fault,
    };
    let answer = client.read_all(&mut reader);
    Ok((client, answer))
}

#[test]
fn bytes_after_a_login_are_keys(rt: HostRuntime) -> Result<(), Fail> {
    for &size in &[1, 2, 17, 18, 19, 5000] {
        let input = b"login ann t1 6 20\r\nh\ni";
        let (client, answer) = heard(rt.alloc(), input, size, ErrorKind::WouldBlock)?;
        assert!(rt; answer == PumpedIn::Idle && client.session() == Some(7));
        assert!(rt; client.server.typed.as_slice() == b"h\ni".as_slice());
    }
    Ok(())
}

// Whether a login line and keys that come in two pieces, cut there, are a session and its keys.
fn is_read_in_two(alloc: Global, cut: usize) -> Result<bool, Fail> {
    let input = b"login ann t1 6 20\r\nh\ni".as_slice();
    let (first, second) = input.split_at(input.len().min(cut));
    let (mut head, mut rest) = (first, second);
    let mut client = Client::new(alloc, None)?;
    let took_first = client.read(&mut head);
    let took_second = client.read(&mut rest);
    Ok(
        took_first == PumpedIn::Took(first.len())
            && took_second == PumpedIn::Took(second.len())
            && client.session() == Some(7)
            && client.server.typed.as_slice() == b"h\ni".as_slice(),
    )
}

#[test]
fn a_login_may_be_cut_at_every_byte(rt: HostRuntime) -> Result<(), Fail> {
    for cut in 1..22 {
        assert!(rt; is_read_in_two(rt.alloc(), cut)?);
    }
    Ok(())
}

#[test]
fn an_end_at_every_byte_of_a_login_is_told(rt: HostRuntime) -> Result<(), Fail> {
    for end in 0..18 {
        let (line, _) = LOGIN.split_at(LOGIN.len().min(end));
        let written = answer(rt.alloc(), line, None, &rt)?;
        assert!(rt; written.as_slice() == REFUSED_LINE);
    }
    Ok(())
}

#[test]
fn bytes_behind_the_end_are_dropped(rt: HostRuntime) -> Result<(), Fail> {
    let input = b"login ann t1 6 20\nh\x03ij";
    let mut client = Client::new(rt.alloc(), None)?;
    let mut reader = input.as_slice();
    let took = client.read(&mut reader);
    assert!(rt; took == PumpedIn::Took(input.len()) && client.session() == Some(7));
    assert!(rt; client.server.typed.as_slice() == b"h".as_slice());
    assert!(rt; is_over(rt.alloc(), &mut client));
    Ok(())
}

// A piece of a line is read in one turn, and then all that waits is written.
fn hears(client: &mut Client, piece: &[u8], written: &mut Vec<u8>) -> bool {
    let mut reader = piece;
    let read = client.read(&mut reader);
    let wrote = client.write(written);
    read == PumpedIn::Took(piece.len()) && wrote == PumpedOut::Drained
}

#[test]
fn a_line_of_128_bytes_is_read_to_its_end(rt: HostRuntime) -> Result<(), Fail> {
    let mut client = Client::new(rt.alloc(), None)?;
    let mut written = Vec::new(rt.alloc());
    assert!(rt; hears(&mut client, &[b'x'; 128], &mut written));
    assert!(rt; written.is_empty());
    assert!(rt; hears(&mut client, b"\n", &mut written));
    assert!(rt; written.as_slice() == REFUSED_LINE);
    Ok(())
}

#[test]
fn a_129th_byte_is_refused_at_once(rt: HostRuntime) -> Result<(), Fail> {
    let mut client = Client::new(rt.alloc(), None)?;
    let mut written = Vec::new(rt.alloc());
    assert!(rt; hears(&mut client, &[b'x'; 128], &mut written));
    assert!(rt; written.is_empty());
    assert!(rt; hears(&mut client, b"xlogin ann t1 6 20\n", &mut written));
    assert!(rt; written.as_slice() == REFUSED_LINE);
    Ok(())
}

// Whether nothing more is read of a connection or written to it, and its session is closed.
fn is_over(alloc: Global, client: &mut Client) -> bool {
    let mut more = LOGIN;
    let read = client.read(&mut more);
    let mut written = Vec::new(alloc);
    let wrote = client.write(&mut written);
    read == PumpedIn::Finished
        && wrote == PumpedOut::Drained
        && more.len() == LOGIN.len()
        && written.is_empty()
        && !client.server.is_open
}

#[test]
fn readers_that_fail_end_the_connection(rt: HostRuntime) -> Result<(), Fail> {
    for &(input, fault, session) in &[
        (b"login ann".as_slice(), ErrorKind::ConnectionReset, None),
        (b"login ann".as_slice(), ErrorKind::Interrupted, None),
        (LOGIN, ErrorKind::ConnectionReset, Some(7)),
        (LOGIN, ErrorKind::Interrupted, Some(7)),
    ] {
        let (mut client, answer) = heard(rt.alloc(), input, 100, fault)?;
        assert!(rt; answer == PumpedIn::Failed && client.session() == session);
        assert!(rt; is_over(rt.alloc(), &mut client));
    }
    Ok(())
}

// A connection whose session is open, and whose terminal eight bytes wait for.
fn served(alloc: Global) -> Result<Client, Fail> {
    let (mut client, _) = heard(alloc, LOGIN, 100, ErrorKind::WouldBlock)?;
    client.server.waiting.extend_from_slice(b"abcdefgh")?;
    Ok(client)
}

/// A writer that takes five bytes.
pub(crate) fn five_taker(alloc: Global, fault: Option<ErrorKind>) -> Narrow {
    Narrow {
        taken: Vec::new(alloc),
        room: 5,
        fault,
    }
}

#[test]
fn the_rest_of_a_partial_write_comes_next(rt: HostRuntime) -> Result<(), Fail> {
    let mut client = served(rt.alloc())?;
    let mut writer = five_taker(rt.alloc(), Some(ErrorKind::WouldBlock));
    let first = client.write(&mut writer);
    assert!(rt; first == PumpedOut::Blocked && client.server.is_open);
    assert!(rt; client.server.waiting.as_slice() == b"fgh".as_slice());
    writer.room = 5;
    let second = client.write(&mut writer);
    assert!(rt; second == PumpedOut::Drained && writer.taken.as_slice() == b"abcdefgh".as_slice());
    Ok(())
}

// A long paint is written in one call, as far as the writer takes it.
#[test]
fn all_that_waits_is_written(rt: HostRuntime) -> Result<(), Fail> {
    let mut client = served(rt.alloc())?;
    client.server.waiting.resize(10_000, b'x')?;
    let mut written = Vec::new(rt.alloc());
    assert!(rt; client.write(&mut written) == PumpedOut::Drained);
    assert!(rt; written.len() == 10_000 && client.server.waiting.is_empty());
    Ok(())
}

#[test]
fn writers_that_fail_end_the_connection(rt: HostRuntime) -> Result<(), Fail> {
    for &fault in &[
        Some(ErrorKind::BrokenPipe),
        Some(ErrorKind::Interrupted),
        None,
    ] {
        let mut client = served(rt.alloc())?;
        let mut writer = five_taker(rt.alloc(), fault);
        let answer = client.write(&mut writer);
        assert!(rt; answer == PumpedOut::Failed && writer.taken.as_slice() == b"abcde".as_slice());
        assert!(rt; is_over(rt.alloc(), &mut client));
    }
    Ok(())
}
