//! Lists in vectors, and copies of them.
//!
//! The bottom of the workspace: a `Vec` that contracts see as its list, so that the types of the tables may hold one.
#![tactic(auto)]

mod duplicate;
mod list;

pub use duplicate::Duplicate;
pub use list::List;
