//! What tables say of entries: the effective pairs and prefixes, chosen lists and covers, how many objects they take, and what they mean.
//!
//! Each program equals its definition in `fib_resolve`, and want of memory is its only other answer. `Known` finds pairs, lists and covers by
//! maps: making it costs a look-up or two for each pair. A `Meaning` knows loops, met needs and MACs beside: entries are made from it. Relations that carry proofs alone stand in `specs/inner`.
#![tactic(auto)]

mod base;
mod covers;
mod effective;
mod keyed;
mod known;
mod loops;
mod macs;
mod meaning;
mod met;
mod paths;
mod places;
mod ranked;
mod repeats;
mod sizes;

pub use covers::attached_of;
pub use keyed::is_same_pair;
pub use known::Known;
pub use meaning::Meaning;
pub use met::is_up;
pub use paths::{add_adjacencies, adjacency_of, is_same_list, recursive_hop, recursive_hops};
pub use places::first_places;
pub use repeats::distinct;
pub use sizes::size;
