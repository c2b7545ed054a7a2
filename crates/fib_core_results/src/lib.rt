//! What a pass of a worker answers, and when that answer is right.
//!
//! Of the core of forwarding beneath running workers this crate has versions and their code (`specs/Versions.antt`), results, and the
//! two facts that every printed result has: it is an answer of the versions that its pass spanned (`specs/Trails.antt`), and it is steady
//! (`specs/Steady.antt`).
#![tactic(auto)]

pub mod laws;
mod record;

pub use record::{Record, Version};
