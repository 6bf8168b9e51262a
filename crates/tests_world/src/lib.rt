//! Tests of an answer that no run of a right program meets: of receipts that aren't the journal, by calls of the
//! comparison itself.
//! They stand apart from the crates that they test, so that each of these is proved once. It has no code of its own.
#![tactic(auto)]

#[cfg(test)]
mod cluster;
#[cfg(test)]
mod receipts;
