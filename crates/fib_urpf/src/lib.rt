//! Reverse path checks: over which interfaces packets to an entry can leave, kept for every entry by turns after each change.
//!
//! `specs/ReversePath.antt` defines the interfaces of an entry over tables, and the strict and the loose check; `specs/Marks.antt` says
//! the same by marked lists; `specs/States.antt` what is kept between turns, and what a turn and a change do to it; `specs/Kept.antt`
//! what contracts see of it; `specs/Interfaces.antt` and `specs/Sets.antt` how sets are read.
#![tactic(auto)]

mod interfaces;
pub mod laws;
mod queueing;
mod sets;
mod urpf;

pub use interfaces::Interfaces;
pub use urpf::Urpf;
