//! The workers of a round: they leave the control plane's board, work in threads of their own, and come home with all that they made.
//!
//! `specs/Stations.antt` says what a worker at its station is before and after its work, `specs/Places.antt` where its frames' results are put, and
//! `specs/Homes.antt` what is at home then: the results of all flows, each once, right and steady, in packet order.
#![tactic(auto)]

mod home;
mod station;

pub use home::bring_home;
pub use station::{Station, forward_all, send_out, work_at};
