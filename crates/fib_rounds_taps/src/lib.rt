//! Who is told of a run's results as they are printed.
//!
//! A tap takes each result with its packet's number; `specs/Taps.antt` says what was taken. `NoTap` takes nothing down, `KeptTap` keeps all.
#![tactic(auto)]

mod all;
mod tap;

pub use all::take_all;
pub use tap::{KeptTap, NoTap, Tap, TapFault};
