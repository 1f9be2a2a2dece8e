//! The screen of a session, as it is drawn into a grid.
#![tactic(auto)]

mod change;
mod drawn_texts;
mod last_row;
mod list_rows;
mod measure;
mod redraw;
mod screen;
mod tab_stops;
mod viewer;

pub use drawn_texts::DrawnTexts;
pub use list_rows::{Sight, draw_entries, draw_listing};
pub use screen::redraw_session;
pub use viewer::Viewer;
