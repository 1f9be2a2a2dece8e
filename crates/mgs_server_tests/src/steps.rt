// Keys, step by step, each with what the terminal then shows.
use super::replay::gives;
use mgs_model::own_columns;
use std::alloc::{AllocError, Global};
use std::process::Abort;
use std::test::Fail;

const HEIGHT: usize = 4;

// Puts a piece behind a text, so many times.
fn push_times(text: &mut String, piece: &str, times: usize) -> Result<(), AllocError> {
    for _ in 0..times {
        text.push_str(piece)?;
    }
    Ok(())
}

fn push_all(text: &mut String, pieces: &[(&str, usize)]) -> Result<(), AllocError> {
    for &(piece, times) in pieces {
        push_times(text, piece, times)?;
    }
    Ok(())
}

/// A text of these pieces, each so many times.
pub(crate) fn text_of(alloc: Global, pieces: &[(&str, usize)]) -> Result<String, AllocError> {
    let mut text = String::new(alloc);
    push_all(&mut text, pieces)?;
    Ok(text)
}

// What comes before the next `|` of a line, less the blanks before the mark, and what comes behind the mark and a blank.
fn cut_field(line: &str) -> (&str, &str) {
    match line.split_once('|') {
        Some((field, rest)) => (field.trim_end(), rest.strip_prefix(' ').unwrap_or(rest)),
        None => (line.trim_end(), ""),
    }
}

// The label of a step, and its keys: a label alone has none.
fn cut_label(step: &str) -> (&str, &str) {
    step.split_once(' ').unwrap_or((step, ""))
}

// The columns of a row: a wide character has two.
fn columns_of(row: &str) -> usize {
    let wide = row.chars().filter(|c| own_columns(*c) == 2).count();
    row.chars().count().saturating_add(wide)
}

// A row of a text or an echo line, filled up to the 60th column.
fn push_row(output: &mut String, row: &str) -> Result<(), AllocError> {
    output.push('|')?;
    output.push_str(row)?;
    for _ in columns_of(row)..60 {
        output.push(' ')?;
    }
    output.push_str("|\n")
}

// A mode line, filled up to the 60th column.
fn push_mode_line(output: &mut String, mode_line: &str) -> Result<(), AllocError> {
    writeln!(output, "!{mode_line:-<60}!")
}

// The rows of a text, which `/` parts. Behind the last there are blanks.
fn push_text(output: &mut String, text: &str) -> Result<(), AllocError> {
    let mut rest = text;
    for _ in 0..HEIGHT {
        let (row, below) = rest.split_once('/').unwrap_or((rest, ""));
        push_row(output, row)?;
        rest = below;
    }
    Ok(())
}

// A mode line: behind a colon as it stands, and else that of the buffer `notes`, of its flag and its place in one.
fn push_mode(output: &mut String, mode: &str) -> Result<(), Fail> {
    match mode.strip_prefix(':') {
        Some(whole) => push_mode_line(output, whole)?,
        None => {
            let (flag, place) = mode.split_at_checked(2).ok_or("no flag")?;
            writeln!(output, "!-{flag}-notes-{place:-<50}!")?;
        }
    }
    Ok(())
}

// A window of this height that shows an empty text.
fn push_window(output: &mut String, height: &str) -> Result<(), Fail> {
    for _ in 0..height.parse::<usize>().ok().ok_or("no height")? {
        push_row(output, "")?;
    }
    push_mode_line(output, "----notes-L1-C0")?;
    Ok(())
}

// Windows of these heights.
fn push_windows(output: &mut String, heights: &str) -> Result<(), Fail> {
    for height in heights.split(' ') {
        push_window(output, height)?;
    }
    Ok(())
}

// What stands above the echo line.
fn push_above(output: &mut String, text: &str, mode: &str) -> Result<(), Fail> {
    if mode == "=" {
        return push_windows(output, text);
    }
    push_text(output, text)?;
    push_mode(output, mode)
}

// The screen of a step: its fields behind the keys.
fn push_screen(output: &mut String, label: &str, fields: &str) -> Result<(), Fail> {
    let (text, rest) = cut_field(fields);
    let (mode, rest) = cut_field(rest);
    let (cursor, echo) = cut_field(rest);
    writeln!(output, "screen {label}")?;
    push_above(output, text, mode)?;
    push_row(output, echo)?;
    writeln!(output, "cursor {cursor}")?;
    Ok(())
}

// The lines of a script for a session and its keys. A label alone looks at that session.
fn push_keys(script: &mut String, label: &str, keys: &str) -> Result<(), AllocError> {
    if !keys.is_empty() {
        writeln!(script, "keys {label} {keys}")?;
    }
    writeln!(script, "show {label}")
}

// How the lines begin that are printed as they stand.
const PRINTED: [&str; 6] = ["|", "!", "screen ", "cursor ", "ended ", "refused "];

fn is_printed(line: &str) -> bool {
    for &start in &PRINTED {
        if line.starts_with(start) {
            return true;
        }
    }
    false
}

// A line of a script, or a step where it has fields.
fn push_step(script: &mut String, output: &mut String, line: &str) -> Result<(), Fail> {
    let (step, fields) = cut_field(line);
    if fields.is_empty() {
        writeln!(script, "{line}")?;
        return Ok(());
    }
    let (label, keys) = cut_label(step);
    push_keys(script, label, keys)?;
    push_screen(output, label, fields)
}

fn push_line(script: &mut String, output: &mut String, line: &str) -> Result<(), Fail> {
    if is_printed(line) {
        writeln!(output, "{line}")?;
        return Ok(());
    }
    push_step(script, output, line)
}

// These lines are played behind what stands in the script.
fn lines_show(
    rt: &impl Abort,
    alloc: Global,
    name: &str,
    script: &mut String,
    output: &mut String,
    lines: &str,
) -> Result<(), Fail> {
    for line in lines.lines() {
        push_line(script, output, line.trim_start())?;
    }
    gives(rt, alloc, name, script.as_bytes(), output.as_str(), Ok(()));
    Ok(())
}

// A script with its name as its first line is played behind a setting.
fn script_shows(rt: &impl Abort, alloc: Global, setting: &str, named: &str) -> Result<(), Fail> {
    let (name, lines) = named.split_once('\n').ok_or("no script")?;
    let mut script = String::from_str(alloc, setting)?;
    let mut output = String::new(alloc);
    lines_show(rt, alloc, name, &mut script, &mut output, lines)
}

// Each script of a text is played behind this setting. It begins with a line of two `=` and its name, and its other lines are those of
// a script, what is then printed, and steps:
//     SESSION KEYS | ROW/ROW/.. | FLAG AND PLACE OF THE MODE LINE | CURSOR | ECHO LINE
// A step without an echo line ends behind its cursor. A mode line `=` says that there are windows of an empty text, whose heights stand in
// the place of the rows. All is told in one text, since a proof of a test goes over each literal.
pub(crate) fn scripts_show(
    rt: &impl Abort,
    alloc: Global,
    setting: &str,
    scripts: &str,
) -> Result<(), Fail> {
    for named in scripts.split("== ").skip(1) {
        script_shows(rt, alloc, setting, named)?;
    }
    Ok(())
}
