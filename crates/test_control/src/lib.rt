//! The calls of the engine's crates, each made once with ample memory.
//!
//! These tests stand apart from what they call, since a crate's own tests have it proved a second time. `specs/Rested.antt` says what a plain
//! board's worker at rest is.
#![tactic(auto)]

#[cfg(test)]
mod config;
#[cfg(test)]
mod control;
#[cfg(test)]
mod entries;
#[cfg(test)]
mod plain;
#[cfg(test)]
mod quiet;
#[cfg(test)]
mod stack;
