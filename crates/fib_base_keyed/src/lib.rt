//! Lists of keys, no two of them equal, in which the place of a key is found by a look-up and a binary search.
//!
//! Contracts see the list itself; `specs/inner` only carries proofs.
#![tactic(auto)]

mod keyed;
mod rows;

pub use keyed::{Gone, Keyed};
