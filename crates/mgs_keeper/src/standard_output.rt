// Standard output, as an outlet that never waits.
//
// What keeps a write from waiting depends on what standard output is. O_NONBLOCK is set on no description that others share: the shell's
// terminal and standard error would have it too.
ghost use Rattle.std.specs.Prelude.{◌≤◌, length};

use crate::line_printer::Outlet;
use libc::net::{MSG_DONTWAIT, MSG_NOSIGNAL, POLLERR, POLLOUT};
use libc::types::pollfd;
use std::fs::{self, File, OpenOptions};
use std::io::Write;
use std::os::fd::AsRawFd;
use std::os::unix::fs::FileTypeExt;

// The path of what standard output is.
const OUTPUT_PATH: &str = "/proc/self/fd/1";

// A pipe that can be written to takes so many bytes at once: a page.
const PIPE_PART: usize = 4096;

// A terminal that can be written to takes so many bytes at once: its room is a multiple of 256, and a line feed takes two.
const TERMINAL_PART: usize = 128;

// How a write is kept from waiting.
#[derive(Drop)]
enum Way {
    // A pipe or terminal is opened again, for this process alone, with O_NONBLOCK: other writers cannot make it wait either.
    Reopened(File),
    // A socket, such as the one to journald, cannot be opened again, and a write to it is asked not to wait.
    Socket,
    // A pipe or terminal of another user cannot be opened again: it is polled before each write of at most so many bytes, which it takes
    // then. It can wait if another process writes to it in between.
    Polled(usize),
    // A file, or a device as /dev/null: it takes what is written.
    Plain,
}

/// Standard output, as an outlet that never waits.
#[derive(Drop)]
pub(crate) struct StandardOutput {
    way: Way,
}

// What a poll of standard output reports, without waiting.
fn poll_output() -> i16 {
    let mut polled = [pollfd {
        fd: libc::STDOUT_FILENO,
        events: POLLOUT,
        revents: 0,
    }];
    if libc::net::poll(&mut polled, 0) < 0 {
        return 0;
    }
    polled[0].revents
}

// Opens a pipe or a terminal again, to write to it without waiting. `None`: it cannot be, or nobody reads the pipe, and the open could wait
// for a reader.
fn reopen(rt: &HostRuntime) -> Option<File> {
    if poll_output() & POLLERR != 0 {
        return None;
    }
    let file = OpenOptions::new().write(true).open(rt, OUTPUT_PATH).ok()?;
    if os::set_nonblocking(file.as_raw_fd(), true) != 0 {
        return None;
    }
    Some(file)
}

// Opens it again, or else polls it.
fn reopen_or_poll(rt: &HostRuntime, part: usize) -> Way {
    match reopen(rt) {
        Some(file) => Way::Reopened(file),
        None => Way::Polled(part),
    }
}

// The way that what standard output is asks for.
fn way_of(rt: &HostRuntime) -> Way {
    let Ok(found) = fs::metadata(rt, OUTPUT_PATH) else {
        return Way::Plain;
    };
    let kind = found.file_type();
    if kind.is_socket() {
        return Way::Socket;
    }
    if kind.is_fifo() {
        return reopen_or_poll(rt, PIPE_PART);
    }
    if libc::isatty(libc::STDOUT_FILENO) == 1 {
        return reopen_or_poll(rt, TERMINAL_PART);
    }
    Way::Plain
}

// Writes to standard output, a socket, without waiting.
fn send_to_socket(bytes: &[u8]) -> usize
    ensures { result ≤ length bytes.now }
{
    let sent = unsafe { libc::net::send(libc::STDOUT_FILENO, bytes, MSG_NOSIGNAL | MSG_DONTWAIT) };
    usize::try_from(sent).unwrap_or(0)
}

// Writes to standard output as it is shared.
fn write_shared(bytes: &[u8]) -> usize
    ensures { result ≤ length bytes.now }
{
    usize::try_from(libc::write(libc::STDOUT_FILENO, bytes)).unwrap_or(0)
}

impl StandardOutput {
    /// Standard output, whatever it is.
    pub(crate) fn new(rt: &HostRuntime) -> StandardOutput {
        StandardOutput { way: way_of(rt) }
    }
}

impl Outlet for StandardOutput {
    ghost use Rattle.std.specs.Prelude.{None};

    ghost written = { λ output. None };

    ghost full = { λ output. Unit {0} };

    fn put(&mut self, bytes: &[u8]) -> usize {
        match &mut self.way {
            Way::Reopened(file) => file.write(bytes).unwrap_or(0),
            Way::Socket => send_to_socket(bytes),
            Way::Polled(part) => {
                if poll_output() & POLLOUT == 0 {
                    return 0;
                }
                let end = bytes.len().min(*part);
                write_shared(&bytes[..end])
            }
            Way::Plain => write_shared(bytes),
        }
    }
}
