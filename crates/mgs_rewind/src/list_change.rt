// What an event makes of a list.
ghost use Rattle.std.specs.Prelude.{◌≡◌, ◌≤◌, ◌<◌, ◌^◌, ◌++◌, ◌∷◌, ◌+◌, [], true, length, take, drop, map, bytes_eq, decimal, option_copied, option_map, IfOk, IfSome, OnOk};
ghost use Rattle.std.specs.List.{slice_split};
ghost use Rattle.mgs_rewind.specs.ListChanges.{entries_after, entries_in, index_told, is_dash, is_semicolon, joined, list_replaced, list_text, list_told, new_entries, next_stripped, replaced, replaced_first, replaced_from, separator, without_space};

use crate::told_rights::{cut_at, place_of};
use crate::whole_part::{strip, whole_part};
use std::alloc::{AllocError, Global};
use std::marker::Model;

/// The text of an entry.
#[derive(Drop)]
struct Piece<'a> {
    text: &'a [u8],
}

impl<'a> Model for Piece<'a> {
    ghost use Rattle.std.specs.Prelude.{List, ℕ};

    ghost Value = { List ℕ };

    ghost view = { λ p. p.text.now };
}

/// So many entries, and what comes in their place.
#[derive(Drop)]
struct Replacement<'a> {
    count: usize,
    new: &'a [u8],
}

impl<'a> Model for Replacement<'a> {
    ghost use Rattle.mgs_rewind.specs.ListChanges.{Replacement as Told};

    ghost Value = { Told };

    ghost view = { λ r. record { count = r.count; new = r.new.now } };
}

// The text without the space before it.
fn without_space(text: &[u8]) -> &[u8]
    ensures { result.now ≡ without_space text.now }
{
    match strip(b" ", text) {
        Some(rest) => rest,
        None => text,
    }
}

fn is_dash(text: &[u8]) -> bool
    ensures { result ≡ is_dash text.now }
{
    text == b"-".as_slice()
}

// Adds the text of one more entry.
fn push_piece<'a>(pieces: &mut Vec<Piece<'a>>, text: &'a [u8]) -> Result<(), AllocError>
    ensures { OnOk result (pieces.new.items ≡ pieces.old.items ++ text.now ∷ []) }
{
    pieces.push(Piece { text })?;
    Ok(())
}

// The text up to an index.
fn before(text: &[u8], at: usize) -> &[u8]
    requires { at ≤ length text.now }
    ensures { result.now ≡ take at text.now }
{
    &text[..at]
}

// The text after the byte at an index.
fn after(text: &[u8], at: usize) -> &[u8]
    requires { at < length text.now }
    ensures { result.now ≡ drop (at + 1) text.now }
{
    &text[at + 1..]
}

// The texts of the entries between semicolons.
fn split<'a>(alloc: Global, text: &'a [u8]) -> Result<Vec<Piece<'a>>, AllocError>
    ensures { IfOk result (λ pieces. pieces.items ≡ map without_space (slice_split is_semicolon text.now)) }
{
    let mut pieces = Vec::new(alloc);
    let mut rest = text;
    while let Some(at) = place_of(rest, b';') {
        push_piece(&mut pieces, without_space(before(rest, at)))?;
        rest = after(rest, at);
    }
    push_piece(&mut pieces, without_space(rest))?;
    Ok(pieces)
}

// The texts of the entries of a list.
fn entries_in<'a>(alloc: Global, list: &'a [u8]) -> Result<Vec<Piece<'a>>, AllocError>
    ensures { IfOk result (λ entries. entries.items ≡ entries_in list.now) }
{
    if is_dash(list) {
        return Ok(Vec::new(alloc));
    }
    split(alloc, list)
}

// Whether a text tells this number.
fn is_number(alloc: Global, text: &[u8], number: usize) -> Result<bool, AllocError>
    ensures { IfOk result (λ is. is ≡ bytes_eq text.now (decimal number)) }
{
    let told = format!(in alloc; "{number}")?;
    Ok(text == told.as_str().as_bytes())
}

// The index that a text tells, counted from 1 there, of an entry among so many or of the one that comes after the last.
fn index_told(alloc: Global, text: &[u8], count: usize) -> Result<Option<usize>, AllocError>
    requires { count < 2 ^ 63 }
    ensures told { IfOk result (λ index. index ≡ index_told text.now count) }
    ensures within { IfOk result (λ index. IfSome index (λ i. i ≤ count)) }
{
    let mut i = 0;
    while i <= count {
        if is_number(alloc, text, i + 1)? {
            return Ok(Some(i));
        }
        i += 1;
    }
    Ok(None)
}

// The text after one more entry.
fn strip_next<'a>(entry: &[u8], text: &'a [u8]) -> Option<&'a [u8]>
    ensures { option_copied result ≡ next_stripped entry.now text.now }
{
    match strip(b"; ", text) {
        Some(rest) => strip(entry, rest),
        None => None,
    }
}

// The entries that are replaced, of which the first was read.
fn replaced_after_first<'a>(entries: &[Piece<'_>], text: &'a [u8]) -> Option<Replacement<'a>>
    ensures { result ≡ replaced_from 1 entries.now text.now }
{
    let mut rest = text;
    let mut count = 1;
    for entry in entries {
        if let Some(new) = strip(b" -> ", rest) {
            return Some(Replacement { count, new });
        }
        let Some(next) = strip_next(entry.text, rest) else {
            return None;
        };
        rest = next;
        count += 1;
    }
    match strip(b" -> ", rest) {
        Some(new) => Some(Replacement { count, new }),
        None => None,
    }
}

fn replaced_first<'a>(entries: &[Piece<'_>], text: &'a [u8]) -> Option<Replacement<'a>>
    ensures { result ≡ replaced_first entries.now text.now }
{
    match entries.first() {
        Some(entry) => match strip(entry.text, text) {
            Some(rest) => replaced_after_first(&entries[1..], rest),
            None => None,
        },
        None => None,
    }
}

// The entries that `OLD -> NEW` replaces, which must begin with those of OLD.
fn replaced<'a>(entries: &[Piece<'_>], text: &'a [u8]) -> Option<Replacement<'a>>
    ensures { result ≡ replaced entries.now text.now }
{
    match strip(b"- -> ", text) {
        Some(new) => Some(Replacement { count: 0, new }),
        None => replaced_first(entries, text),
    }
}

fn push_pieces<'a>(pieces: &mut Vec<Piece<'a>>, more: &[Piece<'a>]) -> Result<(), AllocError>
    ensures { OnOk result (pieces.new.items ≡ pieces.old.items ++ more.now) }
{
    for piece in more {
        push_piece(pieces, piece.text)?;
    }
    Ok(())
}

fn push_new<'a>(pieces: &mut Vec<Piece<'a>>, new: &'a [u8]) -> Result<(), AllocError>
    ensures { OnOk result (pieces.new.items ≡ pieces.old.items ++ new_entries new.now) }
{
    if is_dash(new) {
        return Ok(());
    }
    push_piece(pieces, new)
}

fn separator(is_first: bool) -> &'static [u8]
    ensures { result.now ≡ separator is_first }
{
    if is_first { b"" } else { b"; " }
}

fn push_joined(text: &mut Vec<u8>, is_first: bool, entry: &[u8]) -> Result<(), AllocError>
    ensures { OnOk result (text.new.items ≡ text.old.items ++ (separator is_first ++ entry.now)) }
{
    text.extend_from_slice(separator(is_first))?;
    text.extend_from_slice(entry)?;
    Ok(())
}

fn join(alloc: Global, pieces: &[Piece<'_>]) -> Result<Vec<u8>, AllocError>
    ensures { IfOk result (λ text. text.items ≡ joined true pieces.now) }
{
    let mut text = Vec::new(alloc);
    let mut is_first = true;
    for piece in pieces {
        push_joined(&mut text, is_first, piece.text)?;
        is_first = false;
    }
    Ok(text)
}

// The text of a list of these entries.
fn list_text(alloc: Global, pieces: &[Piece<'_>]) -> Result<Vec<u8>, AllocError>
    ensures { IfOk result (λ text. text.items ≡ list_text pieces.now) }
{
    if pieces.is_empty() {
        return Vec::from_slice(alloc, b"-");
    }
    join(alloc, pieces)
}

// The entries after so many.
fn entries_from<'a, 'b>(entries: &'b [Piece<'a>], count: usize) -> &'b [Piece<'a>]
    ensures { result.now ≡ drop count entries.now }
{
    if count < entries.len() {
        &entries[count..]
    } else {
        &[]
    }
}

// The text of a list whose entries from an index on are others.
fn replace<'a>(
    alloc: Global,
    entries: &[Piece<'a>],
    i: usize,
    replacement: &Replacement<'a>,
) -> Result<Vec<u8>, AllocError>
    requires { i ≤ length entries.now }
    ensures { IfOk result (λ text. text.items ≡ list_text (entries_after entries.now i replacement.now)) }
{
    let mut all = Vec::new(alloc);
    push_pieces(&mut all, &entries[..i])?;
    push_new(&mut all, replacement.new)?;
    push_pieces(
        &mut all,
        entries_from(entries_from(entries, i), replacement.count),
    )?;
    list_text(alloc, all.as_slice())
}

// The text of a list whose entries from an index on begin with those of OLD in `OLD -> NEW`.
fn list_replaced(
    alloc: Global,
    entries: &[Piece<'_>],
    i: usize,
    text: &[u8],
) -> Result<Option<Vec<u8>>, AllocError>
    requires { i ≤ length entries.now }
    ensures { IfOk result (λ list. option_map (λ v. v.items) list ≡ list_replaced entries.now i text.now) }
{
    match replaced(&entries[i..], text) {
        Some(replacement) => Ok(Some(replace(alloc, entries, i, &replacement)?)),
        None => Ok(None),
    }
}

/// What a list becomes, if the detail fits it: `N: OLD -> NEW` with the entries that differ, or `OLD -> NEW` with all.
pub(crate) fn list_told(
    alloc: Global,
    list: &[u8],
    detail: &[u8],
) -> Result<Option<Vec<u8>>, AllocError>
    ensures { IfOk result (λ new. option_map (λ v. v.items) new ≡ list_told list.now detail.now) }
{
    let (place, change) = cut_at(detail, b':');
    let entries = entries_in(alloc, list)?;
    match index_told(alloc, place, entries.len())? {
        Some(i) => list_replaced(alloc, entries.as_slice(), i, without_space(change)),
        None => whole_part(alloc, list, detail),
    }
}
