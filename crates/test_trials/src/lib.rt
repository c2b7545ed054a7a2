//! The rows that the trials of the engine's layers find.
//!
//! These tests stand apart from what they call, since a crate's own tests have it proved a second time.
#![tactic(auto)]

#[cfg(test)]
mod trials;
