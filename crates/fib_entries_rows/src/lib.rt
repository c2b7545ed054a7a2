//! The rows of entries: made from what tables mean, looked up, compared, put in and taken out.
//!
//! What contracts of `fib_entries` say stands in `specs/Known.antt` (rows and lists, and the tables for which they stand) and
//! `specs/Changes.antt`; `specs/inner` only carries proofs. All are functions over rows and lists; entries are made of these.
#![tactic(auto)]

pub mod aims;
pub mod build;
pub mod changes;
pub mod coming;
pub mod compare;
pub mod dependants;
pub mod edges;
pub mod going;
pub mod groups;
pub mod links;
pub mod look;
pub mod parts;
pub mod plies;
pub mod ranks;
pub mod rows;
pub mod sizes;
pub mod whole;

pub use changes::{FollowError, Followed, Moved, Touched};
pub use rows::Row;
