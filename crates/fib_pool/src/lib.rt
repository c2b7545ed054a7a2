//! Numbered objects, their kinds and counts, and the interned adjacency records.
//!
//! What contracts say of objects stands in `specs/Objects.antt`, of records in `specs/Records.antt`; `specs/inner` only carries proofs.
#![tactic(auto)]

mod object;
mod pool;
mod table;

pub use object::{AdjacencyRecord, Kind, Object, TakenRecord};
pub use pool::Pool;
pub use table::AdjTable;
