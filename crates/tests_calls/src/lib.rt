//! Tests of what no contract says of requests, replies, connections, openings, audits, made scripts and what
//! sinks hand out: that their calls succeed with ample memory.
//! They stand apart from the crates that they test, so that each of these is proved once. It has no code of its own.
#![tactic(auto)]

#[cfg(test)]
mod audit;
#[cfg(test)]
mod connections;
#[cfg(test)]
mod made_scripts;
#[cfg(test)]
mod open;
#[cfg(test)]
mod reply;
#[cfg(test)]
mod requests;
#[cfg(test)]
mod sinktask;
