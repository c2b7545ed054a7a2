//! The calls of the crates below all and of the rule, its boards and what the stack keeps beside it, each made once with
//! ample memory, and each generic at a type of its own.
//!
//! A file a crate. These tests stand apart from what they call, since a crate's own tests have it proved a second time.
#![tactic(auto)]

#[cfg(test)]
mod addr;
#[cfg(test)]
mod blocks;
#[cfg(test)]
mod board;
#[cfg(test)]
mod buckets;
#[cfg(test)]
mod core_calls;
#[cfg(test)]
mod cover;
#[cfg(test)]
mod expect;
#[cfg(test)]
mod hops;
#[cfg(test)]
mod interned;
#[cfg(test)]
mod keyed;
#[cfg(test)]
mod lawful;
#[cfg(test)]
mod ledger;
#[cfg(test)]
mod lines;
#[cfg(test)]
mod list;
#[cfg(test)]
mod loops;
#[cfg(test)]
mod ordered;
#[cfg(test)]
mod outside;
#[cfg(test)]
mod pool;
#[cfg(test)]
mod queue;
#[cfg(test)]
mod reach;
#[cfg(test)]
mod rule;
#[cfg(test)]
mod serving;
#[cfg(test)]
mod settings;
#[cfg(test)]
mod shared;
#[cfg(test)]
mod stands;
#[cfg(test)]
mod steady;
#[cfg(test)]
mod union;
