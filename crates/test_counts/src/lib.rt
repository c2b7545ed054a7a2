//! Tests of the calls of `fib_counts`: seats that count side by side, each in a thread of its own.
//!
//! These tests stand apart from what they call, since a crate's own tests have it proved a second time.
#![tactic(auto)]

#[cfg(test)]
mod counts;
