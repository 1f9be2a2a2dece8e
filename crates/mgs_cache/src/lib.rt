//! What access lists decided, kept.
#![tactic(auto)]

mod judge;
mod request;

pub use judge::{Judge, KEPT_LIMIT};
