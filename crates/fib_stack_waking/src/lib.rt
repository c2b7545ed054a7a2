//! Prefixes that wait for a turn: who is woken by a turn of another, and how prefixes are queued under their ranks.
//!
//! What contracts say stands in `specs/Waking.antt`.
#![tactic(auto)]

mod queueing;
mod waking;

pub use queueing::{enqueue, wake_all};
pub use waking::woken_where;
