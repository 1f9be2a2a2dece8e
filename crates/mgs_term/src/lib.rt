//! A terminal that accepts exactly what a painter of screens needs, and refuses everything else for good.
//!
//! The sequences are those of a VT100: `ESC [ r ; c H`, `ESC [ 2 J`, `ESC [ K`, `ESC [ 7 m`, `ESC [ m`, `ESC [ ? 7 l`, and
//! with wrap off the bytes 0x20 to 0x7E and, in UTF-8, characters past ASCII that take one column or two.
#![tactic(auto)]

mod cell;
mod machine;
mod operation;
mod place;
mod term;

pub use cell::Cell;
pub use machine::OutOfProfile;
pub use operation::Operation;
pub use term::Term;
