//! Which edges of a directed graph lie on cycles, and an order of its nodes in which every other edge leads back.
//!
//! Time and memory grow with the nodes plus the edges. What marks mean stands in `specs/Loops`; `specs/inner` only carries proofs.
#![tactic(auto)]

mod edges;
mod enter;
mod marks;
mod part;

pub use marks::{Marks, mark};
