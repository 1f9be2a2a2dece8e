// What the program says on standard error.
use std::fmt::Display;

/// Prints a line on standard error. Where that fails the line is lost, and the program's status stays what it is.
pub fn tell<R: Eprint>(rt: &R, line: impl Display + Drop) {
    let _ = eprintln!(rt; "{line}");
}
