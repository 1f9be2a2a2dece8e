//! Tests of plans, windows, buffers and screens, through their public calls.
#![tactic(auto)]

#[cfg(test)]
mod buffers;
#[cfg(test)]
mod cases;
#[cfg(test)]
mod filling;
#[cfg(test)]
mod grid;
#[cfg(test)]
mod names;
#[cfg(test)]
mod paint;
#[cfg(test)]
mod people;
#[cfg(test)]
mod plans;
#[cfg(test)]
mod saving;
#[cfg(test)]
mod taking_back;
#[cfg(test)]
mod terminal;
#[cfg(test)]
mod whites;
#[cfg(test)]
mod windows;
