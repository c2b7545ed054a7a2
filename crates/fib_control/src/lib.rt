//! The control plane: tables with what follows from them, a plane with its prefix table and buckets, and the queue of what a change touched.
//!
//! `specs/Controls.antt` has what contracts see of a control and what its calls do; `specs/inner` says what stands of every control, which only
//! carries proofs.
#![tactic(auto)]

mod batches;
mod beginning;
mod control;
mod crew;
mod errors;
mod following;
mod looking;
mod passes;
mod queueing;
mod settling;

pub use control::Control;
pub use errors::{ApplyError, BatchApplyError, Busy};
