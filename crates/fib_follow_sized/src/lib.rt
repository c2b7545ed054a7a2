//! The size of the tables after a change, by their size before it and by what the changed entries tell.
//!
//! `specs/Holders.antt` says what has to be known of the entries beside the changed ones; `specs/inner` only carries proofs.
#![tactic(auto)]

mod below;
mod ends;
mod moved;
mod plies;
mod sizing;

pub use ends::{HeldEnds, asked_ends};
pub use sizing::sized;
