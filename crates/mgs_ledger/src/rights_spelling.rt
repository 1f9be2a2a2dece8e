// How rights are spelled.
ghost use Rattle.std.specs.Prelude.{◌≡◌, ◌++◌, true, IfOk, OnOk, string_bytes};
ghost use Rattle.mgs_model.specs.Draw.{entry_text};
ghost use Rattle.mgs_ledger.specs.Spelling.{entry_lines, line_feed, listed, parted, separator, text_or_empty};

use mgs_acl::{List, print_entry};
use mgs_model::{Entry, Name};
use std::alloc::{AllocError, Global};

/// The name's characters, as a text: all are ASCII.
pub(crate) fn name_text(name: &Name) -> &str
    ensures { result.now ≡ name.now }
{
    match str::from_utf8(name.as_bytes()) {
        Ok(text) => text,
        Err(_) => "",
    }
}

/// The name, or nothing if there is none.
pub(crate) fn text_or_empty(name: &Option<Name>) -> &str
    ensures { result.now ≡ text_or_empty name.now }
{
    match name {
        Some(name) => name_text(name),
        None => "",
    }
}

fn push_entry(text: &mut String, entry: &Entry) -> Result<(), AllocError>
    ensures { OnOk result (string_bytes text.new ≡ string_bytes text.old ++ entry_text entry.now) }
{
    text.push_str(print_entry(entry).as_str())
}

fn push_line(text: &mut String, entry: &Entry) -> Result<(), AllocError>
    ensures { OnOk result (string_bytes text.new ≡ string_bytes text.old ++ (entry_text entry.now ++ line_feed)) }
{
    push_entry(text, entry)?;
    text.push_str("\n")
}

fn lines_of(alloc: Global, entries: &[Entry]) -> Result<String, AllocError>
    ensures { IfOk result (λ text. string_bytes text ≡ entry_lines entries.now) }
{
    let mut text = String::new(alloc);
    for entry in entries {
        push_line(&mut text, entry)?;
    }
    Ok(text)
}

/// The entries of a list, each as it is printed and on a line of its own.
pub(crate) fn entry_lines(alloc: Global, list: &List) -> Result<String, AllocError>
    ensures { IfOk result (λ text. string_bytes text ≡ entry_lines list.now) }
{
    lines_of(alloc, list.as_slice())
}

fn separator_text(is_first: bool) -> &'static str
    ensures { result.now ≡ separator is_first }
{
    if is_first { "" } else { "; " }
}

fn push_parted(text: &mut String, is_first: bool, entry: &Entry) -> Result<(), AllocError>
    ensures { OnOk result (string_bytes text.new ≡ string_bytes text.old ++ (separator is_first ++ entry_text entry.now)) }
{
    text.push_str(separator_text(is_first))?;
    push_entry(text, entry)
}

fn parted_text(alloc: Global, entries: &[Entry]) -> Result<String, AllocError>
    ensures { IfOk result (λ text. string_bytes text ≡ parted true entries.now) }
{
    let mut text = String::new(alloc);
    let mut is_first = true;
    for entry in entries {
        push_parted(&mut text, is_first, entry)?;
        is_first = false;
    }
    Ok(text)
}

/// The entries, parted by `; `, or `-` if there is none.
pub(crate) fn listed_text(alloc: Global, entries: &[Entry]) -> Result<String, AllocError>
    ensures { IfOk result (λ text. string_bytes text ≡ listed entries.now) }
{
    if entries.is_empty() {
        return String::from_str(alloc, "-");
    }
    parted_text(alloc, entries)
}
