//! A control plane over live cells, beside workers that forward: trials of both together, as library functions.
//!
//! `specs/Crewed.antt` says who of a board's workers is out.
#![tactic(auto)]

pub mod alone;
pub mod crowded;
pub mod held;
pub mod live;
pub mod restacks;
