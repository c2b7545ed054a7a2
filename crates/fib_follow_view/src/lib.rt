//! Entries as they are after a change: those that were made anew, and beside them those of before.
//!
//! `specs/Views.antt` says what was made anew and of which tables; `specs/inner` only carries proofs.
#![tactic(auto)]

mod before;
mod parts;
mod view;

pub use before::Before;
pub use view::{Anew, View};
