// The document of a configuration.
ghost use Rattle.std.specs.Prelude.{◌≡◌, [], map, IfOk, option_map};
ghost use Rattle.std.specs.List.{list_all};
ghost use Rattle.toml.specs.View.{view};
ghost use Rattle.mgs_config.specs.Document.{document_in, is_table, are_tables_at, is_configuration, rows_at};

use crate::row::{has_only, values_at};
use std::alloc::{AllocError, Global};
use toml::Value;

/// The document that a text writes. `None`: it is no TOML.
pub(crate) fn read_document(alloc: Global, text: &str) -> Result<Option<Value>, AllocError>
    ensures { IfOk result (λ found. option_map view found ≡ document_in text.now) }
{
    match toml::table_from_str(alloc, text) {
        Ok(table) => Ok(Some(Value::Table(table))),
        Err(error) => if error.is_memory() {
            Err(AllocError)
        } else {
            Ok(None)
        },
    }
}

fn are_tables(values: &[Value]) -> bool
    ensures { result ≡ list_all (λ v. is_table (view v)) values.now }
{
    values.iter().all(Value::is_table)
}

// Whether a key is absent, or holds a list of tables.
#[tactic(auto, using(crate::proofs::RowLemmas::tables_in_values))]
fn are_tables_at(document: &Value, key: &str) -> bool
    ensures { result ≡ are_tables_at key.now (view document.now) }
{
    match document.get(key) {
        Some(value) => match value.as_array() {
            Some(values) => are_tables(values.as_slice()),
            None => false,
        },
        None => true,
    }
}

/// Whether a document has lists of tables of users, groups and buffers, and nothing else.
pub(crate) fn is_configuration(document: &Value) -> bool
    ensures { result ≡ is_configuration (view document.now) }
{
    has_only(&["user", "group", "buffer"], document)
        && are_tables_at(document, "user")
        && are_tables_at(document, "group")
        && are_tables_at(document, "buffer")
}

/// The tables of the list at a key.
pub(crate) fn rows_at<'a>(document: &'a Value, key: &str) -> &'a [Value]
    ensures { map view result.now ≡ rows_at key.now (view document.now) }
{
    match values_at(document, key) {
        Some(rows) => rows,
        None => &[],
    }
}
