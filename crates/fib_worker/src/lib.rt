//! Workers that forward packets over live cells.
//!
//! A `Worker` is a seat at rest. `forward` makes a whole pass: it loads the version, walks the cells by the packet's address and flow hash
//! to an end, and loads the version again. `begin`, `hop` and `end` are the same pass step by step, by types that must be spent. A hop
//! is one atomic load of a cell, or the three words of an adjacency. No call waits, takes a lock or takes memory, and a pass ends
//! whatever the control plane does meanwhile: it never visits an object twice.
//!
//! `specs/Passes.antt` says what the calls make of the seat. That each answer is right and steady is told where the seat comes home.
#![tactic(auto)]

mod hops;
mod pass;
mod step;
mod walk;
mod worker;

pub use pass::{Done, Finished, Pass};
pub use step::Step;
pub use worker::Worker;
