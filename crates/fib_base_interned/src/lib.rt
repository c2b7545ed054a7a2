//! Interned contents: equal contents are kept once, each under a number of its own, with a count of its users.
//!
//! `Interned` is given its numbers by the caller (an adjacency's object), `Numbered` gives them itself (path-lists).
//! What contracts say stands in `specs/Interned.antt`; `specs/inner` only carries proofs.
#![tactic(auto)]

mod interned;
mod numbered;

pub use interned::Interned;
pub use numbered::Numbered;
