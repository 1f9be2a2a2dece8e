// How the tables of a configuration are read.
ghost use Rattle.std.specs.Prelude.{◌≡◌, map, option_map, IfOk};
ghost use Rattle.std.specs.List.{list_all, list_any};
ghost use Rattle.mgs_model.specs.Names.{same_name};
ghost use Rattle.toml.specs.View.{table_view, view};
ghost use Rattle.mgs_config.specs.Rows.{are_keys, has_only, is_text, text_of, text_at, texts_at, texts_in, values_at, user_row, group_row};

use std::alloc::{AllocError, Global};
use toml::{Table, Value};

fn is_key(keys: &[&str], key: &str) -> bool
    ensures { result ≡ list_any (λ k. same_name key.now k.now) keys.now }
{
    keys.iter().any(|other| key == *other)
}

#[tactic(auto, using(crate::proofs::RowLemmas::among_keys))]
fn are_keys(keys: &[&str], table: &Table) -> bool
    ensures { result ≡ are_keys (map (λ k. k.now) keys.now) (table_view table.now) }
{
    for (key, _) in table {
        if !is_key(keys, key.as_str()) {
            return false;
        }
    }
    true
}

/// Whether it is a table with no other keys than these.
pub(crate) fn has_only(keys: &[&str], row: &Value) -> bool
    ensures { result ≡ has_only (map (λ k. k.now) keys.now) (view row.now) }
{
    match row.as_table() {
        Some(table) => are_keys(keys, table),
        None => false,
    }
}

/// The string at a key.
pub(crate) fn text_at<'a>(row: &'a Value, key: &str) -> Option<&'a str>
    ensures { option_map (λ text. text.now) result ≡ text_at key.now (view row.now) }
{
    match row.get(key) {
        Some(value) => value.as_str(),
        None => None,
    }
}

/// Whether each of these values is a string.
pub(crate) fn are_texts(values: &[Value]) -> bool
    ensures { result ≡ list_all (λ v. is_text (view v)) values.now }
{
    values.iter().all(Value::is_str)
}

// The strings of a list; for what is no string, an empty one.
fn texts_of<'a>(alloc: Global, values: &'a [Value]) -> Result<Vec<&'a str>, AllocError>
    ensures { IfOk result (λ texts. map (λ t. t.now) texts.items ≡ map (λ v. text_of (view v)) values.now) }
{
    let mut texts = Vec::new(alloc);
    for value in values {
        texts.push(value.as_str().unwrap_or(""))?;
    }
    Ok(texts)
}

// The strings of a list that holds nothing else.
#[tactic(auto, using(crate::proofs::RowLemmas::texts_in_values))]
fn texts_in<'a>(alloc: Global, values: &'a [Value]) -> Result<Option<Vec<&'a str>>, AllocError>
    ensures { IfOk result (λ found. option_map (λ texts. map (λ t. t.now) texts.items) found ≡ texts_in (map view values.now)) }
{
    if !are_texts(values) {
        return Ok(None);
    }
    Ok(Some(texts_of(alloc, values)?))
}

/// The values of the array at a key.
#[tactic(auto, using(crate::proofs::RowLemmas::data_in_view))]
pub(crate) fn values_at<'a>(row: &'a Value, key: &str) -> Option<&'a [Value]>
    ensures { option_map (λ values. map view values.now) result ≡ values_at key.now (view row.now) }
{
    match row.get(key) {
        Some(value) => match value.as_array() {
            Some(values) => Some(values.as_slice()),
            None => None,
        },
        None => None,
    }
}

/// The list of strings at a key.
fn texts_at<'a>(
    alloc: Global,
    row: &'a Value,
    key: &str,
) -> Result<Option<Vec<&'a str>>, AllocError>
    ensures { IfOk result (λ found. option_map (λ texts. map (λ t. t.now) texts.items) found ≡ texts_at key.now (view row.now)) }
{
    match values_at(row, key) {
        Some(values) => texts_in(alloc, values),
        None => Ok(None),
    }
}

/// A user's name and ticket.
pub(crate) fn user_row(row: &Value) -> Option<(&str, &str)>
    ensures { option_map (λ user. (user.0.now, user.1.now)) result ≡ user_row (view row.now) }
{
    if !has_only(&["name", "ticket"], row) {
        return None;
    }
    match (text_at(row, "name"), text_at(row, "ticket")) {
        (Some(name), Some(ticket)) => Some((name, ticket)),
        _ => None,
    }
}

/// A group's name and members.
pub(crate) fn group_row<'a>(
    alloc: Global,
    row: &'a Value,
) -> Result<Option<(&'a str, Vec<&'a str>)>, AllocError>
    ensures { IfOk result (λ found. option_map (λ g. (g.0.now, map (λ t. t.now) g.1.items)) found ≡ group_row (view row.now)) }
{
    if !has_only(&["name", "members"], row) {
        return Ok(None);
    }
    match (text_at(row, "name"), texts_at(alloc, row, "members")?) {
        (Some(name), Some(members)) => Ok(Some((name, members))),
        _ => Ok(None),
    }
}
