//! What an act of a session comes to: whether it is permitted, and what it plans. Nothing is written.
#![tactic(auto)]

mod action;
mod actor;
mod acts;
mod answer;
mod by_name;
mod entry_list;
mod given;
mod insertion;
mod judgement;
mod key_act;
mod kill;
mod list_scroll;
mod new_name;
mod on_text;
mod outcome;
mod rule_change;
mod save;
mod search_positions;
mod subject;
mod switch;
mod text_command;
mod typed_search;

pub use action::Action;
pub use acts::plan_act;
pub use answer::plan_answer;
pub use key_act::{KeyAct, counted};
pub use outcome::{EntryPlan, Outcome};
pub use rule_change::changed;
pub use search_positions::{edit_of, edit_of_insertion, follow, if_edit};
pub use text_command::{denial, insertion_mask};
