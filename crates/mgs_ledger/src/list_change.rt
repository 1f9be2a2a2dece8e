// Which entries of a list are others.
ghost use Rattle.std.specs.Prelude.{◌≡◌, ◌≤◌, length, drop, take, IfOk, string_bytes};
ghost use Rattle.mgs_ledger.specs.ListChanges.{are_alike, change_from, change_text, common_start, last_entries, list_change, longest_end, same_entry, without_last};
ghost use Rattle.mgs_ledger.specs.Spelling.{arrow};

use crate::rights_spelling::listed_text;
use mgs_acl::print_entry;
use mgs_model::Entry;
use std::alloc::{AllocError, Global};

fn is_same_entry(a: &Entry, b: &Entry) -> bool
    ensures { result ≡ same_entry a.now b.now }
{
    print_entry(a).as_str() == print_entry(b).as_str()
}

// How many entries two lists have in common from the first on.
fn common_start(old: &[Entry], new: &[Entry]) -> usize
    ensures count { result ≡ common_start old.now new.now }
    ensures in_old { result ≤ length old.now }
    ensures in_new { result ≤ length new.now }
{
    let mut i = 0;
    while i < old.len() && i < new.len() {
        if !is_same_entry(&old[i], &new[i]) {
            return i;
        }
        i += 1;
    }
    i
}

/// Whether two lists have the same entries.
pub(crate) fn are_alike(old: &[Entry], new: &[Entry]) -> bool
    ensures { result ≡ are_alike old.now new.now }
{
    old.len() == new.len() && common_start(old, new) == old.len()
}

// The last so many entries.
fn last_entries(entries: &[Entry], count: usize) -> &[Entry]
    requires { count ≤ length entries.now }
    ensures { result.now ≡ last_entries count entries.now }
{
    &entries[entries.len() - count..]
}

// All entries but the last so many.
fn without_last(entries: &[Entry], count: usize) -> &[Entry]
    requires { count ≤ length entries.now }
    ensures { result.now ≡ without_last count entries.now }
{
    &entries[..entries.len() - count]
}

// How many entries two lists have in common up to the last.
fn longest_end(was: &[Entry], is: &[Entry]) -> usize
    ensures count { result ≡ longest_end was.now is.now }
    ensures in_was { result ≤ length was.now }
    ensures in_is { result ≤ length is.now }
{
    let mut count = was.len().min(is.len());
    while count > 0 {
        if are_alike(last_entries(was, count), last_entries(is, count)) {
            return count;
        }
        count -= 1;
    }
    0
}

/// What was, and what is.
pub(crate) fn arrow_text(alloc: Global, old: &str, new: &str) -> Result<String, AllocError>
    ensures { IfOk result (λ text. string_bytes text ≡ arrow old.now new.now) }
{
    let mut text = String::from_str(alloc, old)?;
    text.push_str(" -> ")?;
    text.push_str(new)?;
    Ok(text)
}

// The place of the first entry that differs, and what the entries were and are, without so many that they have in common up to the last.
fn change_text(
    alloc: Global,
    place: usize,
    end: usize,
    was: &[Entry],
    is: &[Entry],
) -> Result<String, AllocError>
    requires in_was { end ≤ length was.now }
    requires in_is { end ≤ length is.now }
    ensures { IfOk result (λ text. string_bytes text ≡ change_text place end was.now is.now) }
{
    let old = listed_text(alloc, without_last(was, end))?;
    let new = listed_text(alloc, without_last(is, end))?;
    let change = arrow_text(alloc, old.as_str(), new.as_str())?;
    let arrow = change.as_str();
    format!(in alloc; "{place}: {arrow}")
}

// The same of the entries from the place on.
fn change_from(
    alloc: Global,
    place: usize,
    was: &[Entry],
    is: &[Entry],
) -> Result<String, AllocError>
    ensures { IfOk result (λ text. string_bytes text ≡ change_from place was.now is.now) }
{
    change_text(alloc, place, longest_end(was, is), was, is)
}

/// How an event tells that a list changed: the place of the first entry that differs, counted from 1, and the entries that differ.
pub(crate) fn list_change(alloc: Global, old: &[Entry], new: &[Entry]) -> Result<String, AllocError>
    ensures { IfOk result (λ text. string_bytes text ≡ list_change old.now new.now) }
{
    let start = common_start(old, new);
    change_from(alloc, start + 1, &old[start..], &new[start..])
}
