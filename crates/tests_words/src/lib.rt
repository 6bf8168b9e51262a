//! Tests of what no contract says of the crates of words and of the pieces over them: that their calls succeed with
//! ample memory, and what their texts are.
//! They stand apart from the crates that they test, so that each of these is proved once. It has no code of its own.
#![tactic(auto)]

#[cfg(test)]
mod assign;
#[cfg(test)]
mod bytes;
#[cfg(test)]
mod group;
#[cfg(test)]
mod keys;
#[cfg(test)]
mod plugin;
#[cfg(test)]
mod properties;
#[cfg(test)]
mod route;
#[cfg(test)]
mod script;
#[cfg(test)]
mod tables;
#[cfg(test)]
mod words;
