//! The union of current and retired edges between numbered objects: which copies of replaced edges stay, until when, and whether an
//! edge would close a cycle among all of them.
//!
//! What contracts say stands in `specs/Marks.antt` and `specs/Unions.antt`; `specs/Backed.antt` serves the rule of the shared words, and
//! `specs/inner` only carries proofs.
#![tactic(auto)]

pub mod laws;
mod links;
mod newest;
mod reach;
mod retired;
mod steps;
mod union;

pub use union::Union;
