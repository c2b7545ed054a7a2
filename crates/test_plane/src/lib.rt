//! The calls of a plane over a plain board, each made once with ample memory.
//!
//! These tests stand apart from what they call, since a crate's own tests have it proved a second time.
#![tactic(auto)]

#[cfg(test)]
mod plane;
