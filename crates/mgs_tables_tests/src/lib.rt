//! Tests of the journal's tables, over memory: what each call changes and refuses, and what a crash leaves.
#![tactic(auto)]

#[cfg(test)]
mod calls;
#[cfg(test)]
mod crash;
#[cfg(test)]
mod log_check;
#[cfg(test)]
mod memory;
#[cfg(test)]
mod texts;
#[cfg(test)]
mod versions;
