//! Acts of searches: an incremental search begins, goes on or is quit, and a query-replace begins, skips a match or replaces it.
#![tactic(auto)]

mod incremental_search;
mod query_replace;
mod target;

pub use incremental_search::{quit_search, search_on, start_search};
pub use query_replace::{replace, skip, start_replacing};
