//! Tests of a server whose journal keeps by what access it may be shown: what the journal is told, in its order, that nothing is shown once
//! it failed, what is served at a start, and that memory which was lent is set aside again.
#![tactic(auto)]

#[cfg(test)]
mod book;
#[cfg(test)]
mod identity;
#[cfg(test)]
mod keeping;
#[cfg(test)]
mod office;
#[cfg(test)]
mod real_tables;
#[cfg(test)]
mod room;
#[cfg(test)]
mod starting;
