//! Queued prefixes in the order of their ranks: the least rank is taken first. No call takes memory but `reserve`.
//!
//! What contracts say stands in `specs/Queues.antt`; `specs/inner` only carries proofs.
#![tactic(auto)]

mod order;
mod queue;

pub use order::Queued;
pub use queue::Queue;
