//! A plan of what entries become, and its writing: what may want memory is taken first, in steps that are taken back where it is wanting.
//!
//! `specs/Plans.antt` says which plans suit rows and what is written of them, `specs/Written.antt` what is done to rows, prefixes and
//! lists, and `specs/Steps.antt` what steps are; `specs/inner` only carries proofs.
#![tactic(auto)]

mod bodies;
mod edges;
mod lists;
mod order;
mod plan;
mod rows;
mod spending;
mod steps;
mod writing;

pub use plan::{Edge, Listed, Marks, Paired, Sourced};
pub use writing::{Plan, write};
