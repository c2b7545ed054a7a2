//! What one line of a script does to a control plane, and what it prints.
//!
//! `specs/Turns.antt` says it over routers, `specs/Routers.antt` which router a control plane is with what is kept of the script.
#![tactic(auto)]

mod batches;
mod changes;
mod changes_alone;
mod means;
mod progress;
mod turn;

pub use changes_alone::{pass_line, refuse_line, run_change_line};
pub use means::Means;
pub use progress::Progress;
pub use turn::{finish, run_line};
