//! Tests of the whole server: by scripts, how their lines are read and what is printed of them, and over sockets, with terminals that
//! connect to it on the loopback address in the same thread.
#![tactic(auto)]

#[cfg(test)]
mod access;
#[cfg(test)]
mod arguments;
#[cfg(test)]
mod cases;
#[cfg(test)]
mod characters;
#[cfg(test)]
mod connections;
#[cfg(test)]
mod extended;
#[cfg(test)]
mod fills;
#[cfg(test)]
mod flags;
#[cfg(test)]
mod gotos;
#[cfg(test)]
mod insertions;
#[cfg(test)]
mod listing;
#[cfg(test)]
mod macros;
#[cfg(test)]
mod motions;
#[cfg(test)]
mod office;
#[cfg(test)]
mod prompts;
#[cfg(test)]
mod replacing;
#[cfg(test)]
mod replay;
#[cfg(test)]
mod screens;
#[cfg(test)]
mod script;
#[cfg(test)]
mod searches;
#[cfg(test)]
mod seeking;
#[cfg(test)]
mod slow;
#[cfg(test)]
mod steps;
#[cfg(test)]
mod terminal;
#[cfg(test)]
mod together;
#[cfg(test)]
mod tutorial;
#[cfg(test)]
mod undos;
#[cfg(test)]
mod windows;
#[cfg(test)]
mod yanks;
