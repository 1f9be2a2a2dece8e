// The other ends of connections.
use crate::office::{Office, turn};
use std::io::{ErrorKind, Read, Write};
use std::net::{Ipv4Addr, SocketAddr, TcpStream};
use std::test::Fail;

// The most turns that a terminal waits for its connection's end.
const TURNS: usize = 200;

// What each sequence of a terminal begins with, and so each paint.
const ESCAPE: u8 = 0x1B;

/// The end of a connection that never waits.
#[derive(Drop)]
pub(crate) struct Terminal {
    stream: TcpStream,
    /// All bytes that came.
    pub got: Vec<u8>,
    /// Whether the server closed the connection.
    pub is_ended: bool,
}

// How many bytes a stream has now, and none where it has ended.
fn read_now(stream: &mut TcpStream, buf: &mut [u8]) -> Result<Option<usize>, Fail> {
    match stream.read(buf) {
        Ok(0) => Ok(None),
        Ok(n) => Ok(Some(n)),
        Err(error) if error.kind() == ErrorKind::WouldBlock => Ok(Some(0)),
        Err(error) => Err(error.into()),
    }
}

// A stream that never waits from now on sends these bytes in one write.
fn send(stream: &mut TcpStream, bytes: &[u8]) -> Result<(), Fail> {
    stream.set_nonblocking(true)?;
    stream.write_all(bytes)?;
    Ok(())
}

/// A terminal that is connected to a port of the loopback address and has sent these bytes in one write.
pub(crate) fn enter(rt: &HostRuntime, port: u16, bytes: &[u8]) -> Result<Terminal, Fail> {
    let mut stream = TcpStream::connect(rt, SocketAddr::from((Ipv4Addr::LOCALHOST, port)))?;
    send(&mut stream, bytes)?;
    Ok(Terminal {
        stream,
        got: Vec::new(rt.alloc()),
        is_ended: false,
    })
}

/// Takes what has come, up to 512 bytes.
pub(crate) fn take(terminal: &mut Terminal) -> Result<(), Fail> {
    let mut buf = [0u8; 512];
    match read_now(&mut terminal.stream, &mut buf)? {
        Some(n) => {
            let bytes = buf.get(..n).ok_or("more bytes than were asked for")?;
            terminal.got.extend_from_slice(bytes)?;
        }
        None => terminal.is_ended = true,
    }
    Ok(())
}

/// Sends more bytes in one write.
pub(crate) fn press(terminal: &mut Terminal, bytes: &[u8]) -> Result<(), Fail> {
    send(&mut terminal.stream, bytes)
}

// Whether these bytes begin with a paint.
fn is_painted(bytes: &[u8]) -> bool {
    match bytes.first() {
        Some(byte) => *byte == ESCAPE,
        None => false,
    }
}

/// Whether the server paints the terminal's screen, while it turns.
pub(crate) fn is_served(office: &mut Office<'_>, terminal: &mut Terminal) -> Result<bool, Fail> {
    for _ in 0..TURNS {
        turn(office)?;
        take(terminal)?;
        if is_painted(&terminal.got) {
            return Ok(true);
        }
    }
    Ok(false)
}

/// Whether the server closes the connection, while it turns.
pub(crate) fn is_closed(office: &mut Office<'_>, terminal: &mut Terminal) -> Result<bool, Fail> {
    for _ in 0..TURNS {
        turn(office)?;
        take(terminal)?;
        if terminal.is_ended {
            return Ok(true);
        }
    }
    Ok(false)
}
