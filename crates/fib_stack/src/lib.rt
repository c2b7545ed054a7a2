//! The stack: what a turn, a retry and a change of the tables do to the buckets of entries, what they keep, the turn and the retry.
//!
//! `specs/States.antt` says what stands of each prefix, `specs/Steps.antt` what a step does, `specs/Steadiness.antt` which buckets keep their
//! word while the versions change, `specs/Orders.antt` in which order prefixes are restacked, `specs/Buckets.antt` how the plane
//! is read, `specs/Records.antt` and `specs/Runs.antt` what taking records and filling an object do, `specs/Joined.antt` what stands between
//! plane, prefix table, stack and queue, `specs/Done.antt` what a turn and a retry answer, and `specs/Room.antt` when objects suffice for all turns
//! until the tables change again; `specs/Turns.antt` has what a turn's parts do,
//! and `specs/inner` only carries proofs. `laws` are over values, `stores` over the plane's calls, `between` on what others do in between.
#![tactic(auto)]

mod begin;
pub mod between;
mod defer;
mod finish;
pub mod laws;
mod leave;
mod ready;
mod records;
mod retry;
mod sixteen;
mod stack;
pub mod stores;
mod turn;
mod wanted;
mod words;

pub use records::{Want, give_all, take_all};
pub use sixteen::fill;
pub use stack::Stack;
pub use turn::Turn;
