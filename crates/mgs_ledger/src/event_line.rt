// The line of an event.
use jiff::Timestamp;
use mgs_tables::EventRow;
use std::alloc::{AllocError, Global};
use std::io::Write;

fn push_time(line: &mut String, at: i64) -> Result<(), AllocError> {
    match Timestamp::from_second(at) {
        Ok(time) => write!(line, "{time}"),
        Err(_) => line.push_str("-"),
    }
}

fn push_field(line: &mut String, field: &str) -> Result<(), AllocError> {
    line.push_str("\t")?;
    line.push_str(field)
}

/// The line of an event: `TIME NUMBER USER WHAT BUFFER DETAIL`, parted by tabs, with a line feed at its end. The time is in UTC, as
/// `2026-11-29T01:22:33Z`. An empty user, buffer or detail is an empty field. A time beyond the year 9999 is `-`.
pub(crate) fn line_of(
    alloc: Global,
    number: i64,
    event: &EventRow<'_>,
) -> Result<String, AllocError> {
    let mut line = String::new(alloc);
    push_time(&mut line, event.at)?;
    write!(line, "\t{number}")?;
    push_field(&mut line, event.user)?;
    push_field(&mut line, event.what)?;
    push_field(&mut line, event.buffer)?;
    push_field(&mut line, event.detail)?;
    line.push_str("\n")?;
    Ok(line)
}

/// Writes the line of an event that is committed. Where it is not written, for want of memory or since the writer fails, nothing is lost:
/// the tables have the event.
pub(crate) fn print_line<W: Write>(out: &mut W, alloc: Global, number: i64, event: &EventRow<'_>) {
    match line_of(alloc, number, event) {
        Ok(line) => {
            let _ = out.write_all(line.as_str().as_bytes());
        }
        Err(_) => {}
    }
}
