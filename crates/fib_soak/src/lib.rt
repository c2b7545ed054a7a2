//! The generator of long runs: a script and flows, each a function of a seed.
#![tactic(auto)]

mod draws;
mod flows;
pub mod laws;
mod lines;
mod script;

pub use flows::soak_flows;
pub use script::soak_script;
