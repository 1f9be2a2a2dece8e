// The standard streams of a server.
ghost use Rattle.std.specs.Prelude.{◌≤◌, IfSome, OnOk};

use std::fs::{self, File, OpenOptions};
use std::io;
use std::os::fd::{AsRawFd, IntoRawFd};

// The numbers of standard input, standard output and standard error are those below.
const STANDARD_STREAMS: u32 = 3;

/// Where the null device is opened: it gets the lowest number that is free.
pub(crate) trait OpensNull {
    ghost use Rattle.std.specs.Prelude.{ℕ, Option, IfOk};
    ghost use Rattle.mgs_command.specs.Streams.{IsOpened};

    // The lowest number that is free, where it is known.
    ghost free: { Self → Option ℕ };

    /// Opens the null device, tells its number, and keeps it open where that is one of a standard stream.
    fn open_null(&mut self) -> io::Result<u32>
        ensures { IfOk result (λ number. IsOpened number (free self.old) (free self.new)) };
}

/// The null device of the system.
#[derive(Drop)]
pub(crate) struct SystemNull<'a, R> {
    /// The system.
    pub rt: &'a R,
}

impl<'a, R: fs::Files<File = File>> OpensNull for SystemNull<'a, R> {
    ghost use Rattle.std.specs.Prelude.{None};

    ghost free = { λ null. None };

    fn open_null(&mut self) -> io::Result<u32> {
        let null = OpenOptions::new()
            .read(true)
            .write(true)
            .open(self.rt, "/dev/null")?;
        let number = u32::try_from(null.as_raw_fd()).unwrap_or(STANDARD_STREAMS);
        if number < STANDARD_STREAMS {
            null.into_raw_fd();
        }
        Ok(number)
    }
}

/// Opens the null device as each standard stream that was closed when the program was started. The system gives what is opened the
/// lowest free number: a listener or a file would be written to as standard output else.
#[tactic(auto, using(crate::proofs::Opened::none_open, crate::proofs::Opened::opened_above, crate::proofs::Opened::opened_one))]
pub(crate) fn open_closed_streams<N: OpensNull>(nulls: &mut N) -> io::Result<()>
    ensures { OnOk result (IfSome (N.free nulls.new) (λ number. STANDARD_STREAMS ≤ number)) }
{
    for stream in 0..STANDARD_STREAMS {
        if nulls.open_null()? >= STANDARD_STREAMS {
            return Ok(());
        }
    }
    Ok(())
}
