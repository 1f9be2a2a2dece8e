//! Tests of what a server is made of: configurations, connections, and the engine, from the bytes of sessions to terminals
//! that are fed theirs.
#![tactic(auto)]

#[cfg(test)]
mod characters;
#[cfg(test)]
mod config;
#[cfg(test)]
mod config_faults;
#[cfg(test)]
mod connections;
#[cfg(test)]
mod drive;
#[cfg(test)]
mod fixtures;
#[cfg(test)]
mod listing;
#[cfg(test)]
mod lockstep;
#[cfg(test)]
mod long_lists;
#[cfg(test)]
mod marks;
#[cfg(test)]
mod queues;
#[cfg(test)]
mod saves;
#[cfg(test)]
mod wire;
