//! The configuration of a router: its tables, and the edits that change them.
//!
//! An edit either gives the edited tables or is refused by the first reason that applies, and then nothing changes.
#![tactic(auto)]

mod bounds;
mod changes;
mod config;
mod digest;
mod edits;
mod errors;
mod lookups;
mod reasons;
mod sizes;
mod undo;

pub use config::Config;
pub use errors::{BatchError, EditError};
pub use undo::{Edited, EditedAll, Undo};
