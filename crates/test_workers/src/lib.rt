//! The calls of boards, cells and workers, each made once with ample memory, on one thread and in threads of their own.
//!
//! A file a crate. These tests stand apart from what they call, since a crate's own tests have it proved a second time.
#![tactic(auto)]

#[cfg(test)]
mod cells;
#[cfg(test)]
mod crew;
#[cfg(test)]
mod expect;
#[cfg(test)]
mod plainboard;
#[cfg(test)]
mod standing;
#[cfg(test)]
mod threads;
#[cfg(test)]
mod worker;
