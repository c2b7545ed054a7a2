//! Finite directed graphs: whether a walk leads from one node to another, and the laws of walks and cycles.
//! Definitions that clauses cite stand in `specs/`, relations that only carry proofs in `specs/inner`.
#![tactic(auto)]

mod graph;
pub mod laws;
mod reach;
mod visit;

pub use graph::Graph;
pub use visit::Search;
