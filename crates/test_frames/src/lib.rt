//! Taps beside whole runs, and packets as they are sent on.
//!
//! These tests stand apart from what they call, since a crate's own tests have it proved a second time.
#![tactic(auto)]

#[cfg(test)]
mod sent;
#[cfg(test)]
mod taps;
