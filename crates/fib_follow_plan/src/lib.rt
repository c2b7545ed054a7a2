//! What entries become as tables change: what of it is found by their features, the plan of what is written, and what is noted for it.
//!
//! `answered` are the hosts that `asks` of `fib_follow_looked` wants, `hops_after` tells which addresses are next hops afterwards, `others`
//! are the entries that `AreOthers` of `fib_follow_told` wants, and `held_ends` the Hop ends that `AreHolders` of `fib_follow_sized` wants.
//! `plan` makes the plan of what was made anew, of the bodies of the rows that are written, of the ranks of the part, and of the edges that
//! come and go (`specs/Made.antt`). `renoted` gathers the entries of which features can be others, `note_all` notes their new features
//! before the plan is written, and `forget_all` forgets the old ones after (`specs/Noted.antt`). The laws say that what is noted tells of
//! all rows, and that what is written stands for the tables after (`specs/Stands.antt`). `specs/inner` only carries proofs.
#![tactic(auto)]

mod asked;
mod beside;
mod changed;
mod covers;
mod ends;
mod entry;
mod gather;
mod hops;
mod hosts;
pub mod laws;
mod listed;
mod lists;
mod made;
mod noting;

pub use beside::others;
pub use ends::held_ends;
pub use entry::Renoted;
pub use gather::renoted;
pub use hops::hops_after;
pub use hosts::answered;
pub use made::plan;
pub use noting::{forget_all, note_all};
