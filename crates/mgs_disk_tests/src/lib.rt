//! Tests of the disk, each in a folder of its own: what is read of a configuration and of the files that it names, and what a save keeps
//! of the file that it replaces. And tests of the program's arguments.
#![tactic(auto)]

#[cfg(test)]
mod faulty;
#[cfg(test)]
mod files;
#[cfg(test)]
mod noting;
#[cfg(test)]
mod room;
#[cfg(test)]
mod saving;
#[cfg(test)]
mod standing;
#[cfg(test)]
mod steps;
#[cfg(test)]
mod tests;
