// The buffers of a configuration.
ghost use Rattle.std.specs.Prelude.{◌≡◌, ◌≤◌, [], ◌∷◌, ◌++◌, length, map, true, IfOk, Some, None, is_some};
ghost use Rattle.std.specs.List.{list_all};
ghost use Rattle.std.specs.Str.{chars};
ghost use Rattle.toml.specs.Data.{get};
ghost use Rattle.toml.specs.View.{view};
ghost use Rattle.mgs_buffers.specs.MarkedBuffer.{has_buffer};
ghost use Rattle.mgs_config.specs.Buffers.{string_at, name_of, are_known, is_known, listed, written, text_or_none, is_list_at, has_content, has_names, is_buffer_row};
ghost use Rattle.mgs_config.specs.Buffers.{is_entry, entries_in, names_refused, contents_refused, refused_beside};

use crate::config_fault::TableFault;
use crate::row::{are_texts, has_only, text_at, values_at};
use mgs_acl::{List, group_named, read_entry, user_named};
use mgs_buffers::Buffers;
use mgs_gap::GapText;
use mgs_model::{BUFFER_LIMIT, ENTRY_LIMIT, Name, TEXT_LIMIT};
use mgs_policy::Directory;
use std::alloc::{AllocError, Global};
use toml::Value;

/// The string at a key, or an empty one.
pub(crate) fn string_at<'a>(row: &'a Value, key: &str) -> &'a str
    ensures { result.now ≡ string_at key.now (view row.now) }
{
    match text_at(row, key) {
        Some(text) => text,
        None => "",
    }
}

/// The values of a table's list.
pub(crate) fn listed(row: &Value) -> &[Value]
    ensures { map view result.now ≡ listed (view row.now) }
{
    match values_at(row, "list") {
        Some(values) => values,
        None => &[],
    }
}

// Whether a key is absent, or holds a string.
fn is_text_or_none(row: &Value, key: &str) -> bool
    ensures { result ≡ text_or_none (get key.now (view row.now)) }
{
    match row.get(key) {
        Some(value) => value.is_str(),
        None => true,
    }
}

fn has_key(row: &Value, key: &str) -> bool
    ensures { result ≡ is_some (get key.now (view row.now)) }
{
    row.get(key).is_some()
}

// Whether a key holds a list of strings.
#[tactic(auto, using(crate::proofs::RowLemmas::all_texts))]
fn is_list_at(row: &Value, key: &str) -> bool
    ensures { result ≡ is_list_at key.now (view row.now) }
{
    match values_at(row, key) {
        Some(values) => are_texts(values),
        None => false,
    }
}

fn has_names(row: &Value) -> bool
    ensures { result ≡ has_names (view row.now) }
{
    text_at(row, "name").is_some()
        && text_at(row, "owner").is_some()
        && is_text_or_none(row, "group")
        && is_list_at(row, "list")
}

// Whether a table has a text, or a file, or neither.
fn has_content(row: &Value) -> bool
    ensures { result ≡ has_content (view row.now) }
{
    is_text_or_none(row, "text")
        && is_text_or_none(row, "file")
        && !(has_key(row, "text") && has_key(row, "file"))
}

fn is_buffer_row(row: &Value) -> bool
    ensures { result ≡ is_buffer_row (view row.now) }
{
    let keys = &["name", "owner", "group", "list", "text", "file"];
    has_only(keys, row) && has_names(row) && has_content(row)
}

fn is_entry(value: &Value) -> bool
    ensures { result ≡ is_entry (view value.now) }
{
    match read_entry(value.as_str().unwrap_or("")) {
        Ok(_) => true,
        Err(_) => false,
    }
}

fn are_entries(values: &[Value]) -> bool
    ensures { result ≡ list_all (λ v. is_entry (view v)) values.now }
{
    values.iter().all(is_entry)
}

#[tactic(auto, using(std::proofs::lemmas::Str::chars_from_encodes))]
fn count_chars(text: &str) -> usize
    ensures { result ≡ length (chars text.now) }
{
    text.chars().count()
}

/// The characters of a text.
#[tactic(auto, using(std::proofs::lemmas::Str::chars_from_encodes))]
pub(crate) fn chars_of(alloc: Global, text: &str) -> Result<Vec<char>, AllocError>
    ensures { IfOk result (λ cs. cs.items ≡ chars text.now) }
{
    text.chars().collect(alloc)
}

// The number of characters of a table's text.
fn text_len(row: &Value) -> usize
    ensures { result ≡ length (written (view row.now)) }
{
    count_chars(string_at(row, "text"))
}

// How many values a table's list has.
#[tactic(auto, using(crate::proofs::RowLemmas::values_count))]
fn list_len(row: &Value) -> usize
    ensures { result ≡ length (listed (view row.now)) }
{
    listed(row).len()
}

// Whether an owning group, where there is one, is a group of the directory.
fn is_known(directory: &Directory, group: Option<Name>) -> bool
    ensures { result ≡ is_known group directory.now.groups }
{
    match group {
        None => true,
        Some(group) => directory.has_group(&group),
    }
}

// Why a table is refused for its names.
fn names_refused(
    directory: &Directory,
    buffers: &Buffers<GapText>,
    row: &Value,
) -> Option<TableFault>
    ensures { result ≡ names_refused (has_buffer (name_of (view row.now)) buffers.now) (are_known directory.now (view row.now)) (view row.now) }
{
    if !is_buffer_row(row) {
        return Some(TableFault::Key);
    }
    let Some(name) = Name::read(string_at(row, "name")) else {
        return Some(TableFault::Name);
    };
    let Some(owner) = user_named(string_at(row, "owner")) else {
        return Some(TableFault::Name);
    };
    let Some(group) = group_named(text_at(row, "group")) else {
        return Some(TableFault::Name);
    };
    if buffers.has(&name) {
        return Some(TableFault::Twice);
    }
    if !directory.has_user(&owner) || !is_known(directory, group) {
        return Some(TableFault::Unknown);
    }
    None
}

// Why a table is refused for its list or its text, where there are so many buffers.
#[tactic(auto, using(crate::proofs::RowLemmas::entries_in_values))]
fn contents_refused(count: usize, row: &Value) -> Option<TableFault>
    ensures { result ≡ contents_refused count (view row.now) }
{
    if !are_entries(listed(row)) {
        return Some(TableFault::Entry);
    }
    if list_len(row) > ENTRY_LIMIT {
        return Some(TableFault::Long);
    }
    if count >= BUFFER_LIMIT {
        return Some(TableFault::Long);
    }
    if text_len(row) > TEXT_LIMIT {
        return Some(TableFault::Long);
    }
    None
}

/// Why the table of a buffer is refused, what its file holds aside.
pub(crate) fn refusal(
    directory: &Directory,
    buffers: &Buffers<GapText>,
    row: &Value,
) -> Option<TableFault>
    ensures { result ≡ refused_beside buffers.now directory.now (view row.now) }
{
    match names_refused(directory, buffers, row) {
        Some(fault) => Some(fault),
        None => contents_refused(buffers.len(), row),
    }
}

// Puts a written entry last in a list with room. One that cannot be read is left out.
fn put_entry(list: &mut List, value: &Value)
    requires { length list.old ≤ 63 }
    ensures { list.new ≡ list.old ++ entries_in (view value.now ∷ []) }
{
    if let Ok(entry) = read_entry(value.as_str().unwrap_or("")) {
        let _ = list.insert(list.len(), entry);
    }
}

/// The entries of a list of written ones, 64 at most.
#[tactic(auto, using(crate::proofs::Entries::entries_more, crate::proofs::Entries::entries_room))]
pub(crate) fn read_list(values: &[Value]) -> List
    requires { length values.now ≤ 64 }
    ensures { result ≡ entries_in (map view values.now) }
{
    let mut list = List::new();
    for value in values {
        put_entry(&mut list, value);
    }
    list
}
