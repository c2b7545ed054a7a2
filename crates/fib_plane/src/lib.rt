//! The control plane's objects: a board joined with the pool of its objects, the adjacency records and the union of its edges.
//!
//! `Plane` puts words into cells so that the union of current and retired edges never has a cycle, and counts the edges into each object: one
//! that is counted no more is cleared and given back in the same call. What contracts see stands in `specs/Planes.antt`, what a put asks and
//! does in `specs/Puts.antt`, and what holds of every plane in `specs/Sound.antt`. The prefix table and the stack of buckets stand on a plane by
//! what they may know of it, `fib_plane_view`'s `Objects`: `specs/Views.antt` says which view of a plane that is. `specs/inner` only carries proofs.
#![tactic(auto)]

mod counted;
mod crew;
pub mod laws;
mod objects;
mod passes;
mod plane;
mod records;
mod replace;
mod scan;
mod sweep;

pub use fib_plane_view::Put;
pub use plane::Plane;
