//! Ordered sets of prefixes: longest matches, and the members inside a prefix.
#![tactic(auto)]

mod set;

pub use set::PrefixSet;
