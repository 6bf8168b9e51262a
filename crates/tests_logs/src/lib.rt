//! Tests of what no contract says of disks, logs, ports and the states over logs: that their calls succeed with ample
//! memory, and what a failing call in their middle leaves.
//! They stand apart from the crates that they test, so that each of these is proved once. It has no code of its own.
#![tactic(auto)]

#[cfg(test)]
mod compact;
#[cfg(test)]
mod config;
#[cfg(test)]
mod data;
#[cfg(test)]
mod disk;
#[cfg(test)]
mod feed;
#[cfg(test)]
mod made;
#[cfg(test)]
mod net;
#[cfg(test)]
mod offset;
#[cfg(test)]
mod outside;
#[cfg(test)]
mod pair;
#[cfg(test)]
mod status;
#[cfg(test)]
mod topic_log;
#[cfg(test)]
mod txn;
