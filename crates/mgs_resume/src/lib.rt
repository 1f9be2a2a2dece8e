//! What a server starts with, where a journal keeps by what access its buffers may be shown: what the journal keeps holds.
#![tactic(auto)]

mod faults;
mod start;

pub use faults::start_faults;
pub use start::{ResumeFault, join};
