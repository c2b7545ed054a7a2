//! What is written of a change of entries, and what is told of it: the edges that come and go, who is written, what its row gets, what is
//! touched, and whose rank is another.
//!
//! `specs/Told.antt` says what these are; `specs/inner` only carries proofs.
#![tactic(auto)]

mod alike;
mod body;
mod edges;
mod seen;
mod telling;
mod written;

pub use body::{Body, bodies};
pub use edges::{Edges, edges_of};
pub use telling::{moved, told, touched};
pub use written::Written;
