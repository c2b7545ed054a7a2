//! What the stack keeps beside the plane: of each prefix whether it forwarded at its last turn and which adjacency records it uses, and
//! which buckets are deferred. No call takes memory but those that make room.
//!
//! `specs/Deferred.antt` says how deferred buckets are looked up, `specs/Ledgers.antt` what is known of a prefix and who uses a record.
#![tactic(auto)]

mod late;
mod ledger;

pub use late::{Late, Lates};
pub use ledger::{Known, Ledger, Use};
