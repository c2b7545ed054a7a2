//! The prefix table: plies of sixteen cells by which a worker finds the balance of an address in at most eight loads.
#![tactic(auto)]

mod beginning;
mod calls;
mod growing;
mod places;
mod prefixes;
mod pruning;
mod pushing;
mod rows;
mod set;
mod table;

pub use prefixes::PrefixTable;
