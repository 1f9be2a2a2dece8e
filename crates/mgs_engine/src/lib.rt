//! Turns events of sessions into bytes for their terminals.
//!
//! An [`Engine`] holds a world, and for each open session what its terminal shows. After each event it draws the screens
//! that the event can have changed, and where one is not what its terminal shows, the bytes that paint it wait to be taken.
#![tactic(auto)]

mod draw;
mod driver;
mod due;
mod end;
mod engine;
mod grid_equality;
mod place;
mod queue;
mod served;
mod session_end;
mod session_screen;
mod sessions;
mod take;
mod tape;

pub use driver::drive;
pub use engine::Engine;
pub use session_end::Cause;
pub use tape::{Answer, Call, Tape};
