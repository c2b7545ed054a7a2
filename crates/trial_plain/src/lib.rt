//! The engine's layers together: a prefix table over a plane over a plain board, and a control plane beneath a pass that is held.
//!
//! A trial is a library function where the calls that it makes ask for something: so it is proved that they may be made, and an edit that breaks
//! one is refused. The tests read what trials answer. `specs/Seats.antt` says who passes on a board.
#![tactic(auto)]

pub mod alone;
pub mod changes;
pub mod crowded;
pub mod held;
pub mod prefixes;
pub mod records;
pub mod refused;
pub mod sets;
pub mod steps;
mod trial;
pub mod trouble;
