//! Tests of the ledger over tables in memory: what comes back of rights and texts, what is told of changes, when what is gathered is committed,
//! what is counted, and which lines an audit prints.
#![tactic(auto)]

#[cfg(test)]
mod calls;
#[cfg(test)]
mod changes;
#[cfg(test)]
mod counted;
#[cfg(test)]
mod desk;
#[cfg(test)]
mod gathered;
#[cfg(test)]
mod kept;
#[cfg(test)]
mod lists;
#[cfg(test)]
mod renewed;
#[cfg(test)]
mod taken;
#[cfg(test)]
mod texts;
