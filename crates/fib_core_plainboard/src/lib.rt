//! The board as one value: the shared words without another thread, and passes as calls.
//!
//! A `PlainBoard` has its words in the layout of the shared table and makes on them, one after another, the events that
//! the control plane and the workers of a live table make. It is under the same rule, `IsLawful` of fib_core_rule, by the
//! same laws. So it shows that what the rule and the trait `Board` ask can be met together.
//!
//! What contracts see of it is the value `Board` of fib_core_board; `specs/Passes.antt` says what begin, hop and end make of
//! it. `Passes` are these calls, of a board and of what stands on one. `specs/inner` only carries proofs.
#![tactic(auto)]

mod memory;
mod passes;
mod plain_board;
mod running;

pub use passes::Passes;
pub use plain_board::PlainBoard;
