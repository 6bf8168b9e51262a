//! Tests of what no contract says of a server: that its herders, task runners and cleaner work, and beside each other.
//! They stand apart from the crate that they test, so that it is proved once. It has no code of its own.
#![tactic(auto)]

#[cfg(test)]
mod gates;
#[cfg(test)]
mod serves;
