//! Interned path-lists: equal lists are kept once, each under a number of its own, with a count of its users.
//!
//! What contracts say stands in `fib_base_interned`'s specs, at lists of paths, and in `specs/PathLists.antt`; `specs/inner` only carries
//! proofs.
#![tactic(auto)]

mod lists;

pub use lists::{PathListId, PathLists};
