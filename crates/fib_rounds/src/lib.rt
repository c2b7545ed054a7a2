//! The rounds of a script: its lines run while workers forward a capture's packets.
//!
//! `specs/Output.antt` says what a script may print, in a form that leaves the interleaving of lines and packets open; `specs/Frozen.antt` is the
//! run whose workers forward by the tables at their round's opening, and `specs/Summaries.antt` has its counts.
#![tactic(auto)]

mod counts;
mod fault;
pub mod laws;
mod lines;
mod opening;
mod put;
mod round;
mod rounds;
mod summary;
mod task;

pub use fault::RunFault;
pub use put::{put_all, put_last};
pub use round::{places_for, settle_home};
pub use rounds::{run, run_on, run_to};
pub use summary::Summary;
pub use task::Task;
