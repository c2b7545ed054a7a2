//! Workers and a control plane over live cells, side by side, and what is found of them by the plain programs.
//!
//! These tests stand apart from what they call, since a crate's own tests have it proved a second time. `specs/Rested.antt` says what a board is
//! as it begins, `specs/Stays.antt` whose words a worker has that was in a thread.
#![tactic(auto)]

#[cfg(test)]
mod beside;
#[cfg(test)]
mod homing;
#[cfg(test)]
mod judge;
#[cfg(test)]
mod live;
#[cfg(test)]
mod pace;
#[cfg(test)]
mod restacks;
