//! What a change of the tables makes another: which entries, which marks of loops, and why a prefix is touched.
//!
//! The definitions stand in `specs/`: what an entry depends on (`Sources`), what each edit can make another (`Affected`), the causes for
//! which a prefix is touched (`Causes`), where tables differ (`Differ`), and ranks (`Ranks`). The crate has no code but the laws, which
//! whoever follows changes of tables rests on.
#![tactic(auto)]

mod change;
pub mod laws;

pub use change::Change;
