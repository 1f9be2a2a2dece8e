//! Stores: where the text of a buffer is saved.
#![tactic(auto)]

mod refusing_store;
mod store;

pub use refusing_store::RefusingStore;
pub use store::{Store, StoreFault};
