//! What changed entries lead to, before and after a change: which of its paths are looped, and ranks that fall there.
//!
//! `specs/Parts.antt` says what a part is and what its ranks are; `specs/inner` only carries proofs.
#![tactic(auto)]

mod edges;
mod lowering;
mod numbers;
mod part;
mod seen;

pub use lowering::{TOP, ranks};
pub use part::Part;
