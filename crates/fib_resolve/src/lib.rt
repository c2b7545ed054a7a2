//! The tables of a router, the edits that change them, and what they mean.
//!
//! The definitions stand in `specs/`, a file a subject: tables and edits, effective pairs, loops, forwarding, buckets, resolution,
//! sizes and touched prefixes. This crate has their types and their laws; `test_plain` has a plain program beside each.
#![tactic(auto)]

mod aims;
mod copies;
pub mod keys;
pub mod laws;
mod names;
mod pairs;
mod types;

pub use aims::{Aim, Marked};
pub use fib_base_blocks::{Blocks, Spare};
pub use fib_base_list::{Duplicate, List};
pub use names::{Name, starts_with_letter};
pub use pairs::{Adjacency, Pair};
pub use types::{
    Address, Edit, End, FibSource, Interface, Need, Neighbor, Path, PathKind, PathSpec, Refusal,
    Route, SpecKind, Tables,
};
