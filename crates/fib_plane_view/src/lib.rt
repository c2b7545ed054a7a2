//! Shared objects as the prefix table and the stack of buckets use them: one view of the plane, and a relation for each of its calls.
//!
//! `specs/View.antt` has the view and the relations, `specs/Promise.antt` what workers are promised and what the calls ask for it, `specs/Frames.antt`
//! what the table and the stack leave to each other.
#![tactic(auto)]

mod objects;
mod put;

pub use objects::Objects;
pub use put::Put;
