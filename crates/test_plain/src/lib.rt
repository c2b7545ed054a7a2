//! The answers that tables mean, by plain programs over lists: each equals its definition, and want of memory is its only other
//! answer.
//!
//! Tests compare with them; nothing of the product stands on them. A `Snapshot` holds what many answers share, and is made once a table.
//! Relations that carry proofs alone stand in `specs/inner`.
#![tactic(auto)]

mod answers;
mod facts;
mod possible;
mod rounds;
mod snapshot;
mod touching;
mod view;
mod ways;

pub use answers::{ends, resolve, touched, usable};
pub use fib_resolve_pairs::size;
pub use snapshot::Snapshot;
