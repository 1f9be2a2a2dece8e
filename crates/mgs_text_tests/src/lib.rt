//! Tests of texts, rights and keys, through their public calls.
#![tactic(auto)]

#[cfg(test)]
mod decisions;
#[cfg(test)]
mod directory;
#[cfg(test)]
mod entries;
#[cfg(test)]
mod judge;
#[cfg(test)]
mod keyboard;
#[cfg(test)]
mod keys;
#[cfg(test)]
mod lines;
#[cfg(test)]
mod lists;
#[cfg(test)]
mod people;
#[cfg(test)]
mod prompts;
#[cfg(test)]
mod searches;
#[cfg(test)]
mod text;
#[cfg(test)]
mod undos;
#[cfg(test)]
mod walks;
