//! One act of a session: it is planned whole, and then done whole or not at all.
#![tactic(auto)]

mod acts;
mod copy;
mod creation;
mod deeds;
mod session_settings;
mod text_action;

pub use acts::{Reply, act, answer};
