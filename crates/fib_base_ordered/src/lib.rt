//! Sets in the order of their members' keys, in blocks: a look-up costs two binary searches, and taking a member in or out moves
//! the members of one block. No memory is taken but by `reserve`.
//!
//! What contracts say of a set stands in `specs/Sets.antt`; `specs/inner` only carries proofs.
#![tactic(auto)]

mod block;
mod set;

pub use block::Keyed;
pub use set::Ordered;
