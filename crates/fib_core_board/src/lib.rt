//! Boards: the shared words as the control plane holds them, whatever lies below.
//!
//! A `Board` has the cells of numbered objects, the version and the workers' pass words. What contracts see of it is the value `Board` of
//! `specs/Boards.antt`, in the rule's own terms; `specs/May.antt` says what its calls ask, and `specs/Told.antt` what holds of every board.
//! A `Crew` is a board whose workers leave and come home.
#![tactic(auto)]

mod board;
mod crew;
pub mod laws;

pub use board::Board;
pub use crew::Crew;
