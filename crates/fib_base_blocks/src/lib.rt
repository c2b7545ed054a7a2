//! Lists that lie in blocks: an element is found by its place with a binary search, and one that comes or goes moves the elements of
//! its block alone.
//!
//! Contracts see the list itself; `specs/inner` only carries proofs.
#![tactic(auto)]

mod copies;
mod layout;
mod list;
mod search;
mod spare;

pub use list::Blocks;
pub use search::Sought;
pub use spare::Spare;
