//! The shared words as live cells: one table that workers load while the control plane stores, and the seats on it.
//!
//! `Cells` are the words. The control plane's seat on them is a `LiveBoard`: a `Board` and a `Crew` of fib_core_board, under the same rule
//! and by the same laws of events as a board of one thread (`IsLawful` of fib_core_rule). It reads its own copy of the cells, and stores into
//! the table. A worker's seat is a `WorkerSeat` at rest, and a `WalkingSeat` on a pass; a `Note` tells it a version. Each call is one
//! atomic operation on one word, or two; none waits, and none but `Cells::new` takes memory.
//!
//! `specs/Seats.antt` says what the calls make of a seat. `specs/inner` only carries proofs: what each step tells its seat, and how a
//! seat's fields and its view belong together.
#![tactic(auto)]

mod board;
mod cells;
mod crew;
mod seats;
mod table;

pub use board::LiveBoard;
pub use cells::{Cells, ControlSeat};
pub use seats::{Note, WalkingSeat, WorkerSeat};
