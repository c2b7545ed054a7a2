//! Boards that stand for the fresh tables, for tests: of any kind, plain or of live cells.
//!
//! 254 stores fill the cells, each ply before it is linked. 17 further ones grow a ply in object 20, below the root's cell 1, and one more puts
//! the balance back that stood there. `specs/inner/Fresh.antt` says which store is which, `specs/inner/Filling.antt` what stands after each.
#![tactic(auto)]

mod filling;

pub use filling::{FILLED, GROWN, cell, fill, word};
