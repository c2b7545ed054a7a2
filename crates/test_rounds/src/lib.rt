//! The listings of empty tables; scripts on a control plane: lines one by one over a plain board, and rounds on workers in threads of their
//! own.
//!
//! These tests stand apart from what they call, since a crate's own tests have it proved a second time.
#![tactic(auto)]

#[cfg(test)]
mod listings;
#[cfg(test)]
mod rounds;
#[cfg(test)]
mod turns;
