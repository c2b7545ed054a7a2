//! Whole runs of the program over files and streams in memory.
//!
//! These tests stand apart from what they call, since a crate's own tests have it proved a second time.
#![tactic(auto)]

#[cfg(test)]
mod gates;
#[cfg(test)]
mod hostile;
#[cfg(test)]
mod outcomes;
#[cfg(test)]
mod runs;
#[cfg(test)]
mod uplinks;
