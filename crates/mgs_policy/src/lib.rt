//! Users, groups, and what an access list decides for them (RFC 8881, section 6.2.1).
#![tactic(auto)]

mod decision;
mod directory;
mod group;
mod users;

pub use decision::{decide, decide_right, is_granted};
pub use directory::{Directory, DirectoryFault};
pub use mgs_model::Decision;
