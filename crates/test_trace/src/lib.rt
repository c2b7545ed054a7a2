//! Tests of traced passes and of the lines of their loads.
//!
//! They stand apart from `fib_trace`, since a crate's own tests have it proved a second time.
#![tactic(auto)]

#[cfg(test)]
mod passes;
#[cfg(test)]
mod texts;
