// The printer that the journal and the server's turns share.
use crate::line_printer::LinePrinter;
use crate::standard_output::StandardOutput;
use std::alloc::AllocError;
use std::cell::RefCell;
use std::io::{self, Write};

/// The printer of standard output.
pub(crate) type OutputPrinter = RefCell<LinePrinter<StandardOutput>>;

/// A printer of standard output for this process.
pub(crate) fn open_printer(rt: &HostRuntime) -> Result<OutputPrinter, AllocError> {
    let printer = LinePrinter::new(rt.alloc(), StandardOutput::new(rt))?;
    Ok(RefCell::new(printer))
}

/// The printer as it is shared. Each write is a whole line, which it takes.
#[derive(Clone, Copy)]
pub(crate) struct SharedPrinter<'a> {
    /// The printer.
    pub printer: &'a OutputPrinter,
}

impl SharedPrinter<'_> {
    /// Prints a line, whatever waits. `AllocError`: memory was refused, and nothing is printed.
    pub(crate) fn announce(&self, line: &str) -> Result<(), AllocError> {
        match self.printer.try_borrow_mut() {
            Ok(mut printer) => printer.announce(line.as_bytes()),
            Err(_) => Err(AllocError),
        }
    }

    /// Writes what waits, as far as that is taken.
    pub(crate) fn send(&self) {
        if let Ok(mut printer) = self.printer.try_borrow_mut() {
            printer.send();
        }
    }
}

impl Write for SharedPrinter<'_> {
    fn write(&mut self, line: &[u8]) -> io::Result<usize> {
        if let Ok(mut printer) = self.printer.try_borrow_mut() {
            printer.print(line);
        }
        Ok(line.len())
    }

    fn flush(&mut self) -> io::Result<()> {
        Ok(())
    }
}
