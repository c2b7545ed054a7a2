//! The effective entries of tables: sources, chosen lists, looped paths, dependants, covers and ranks; and what a change touches.
//!
//! What a contract says stands in `fib_entries_rows`: `specs/Known.antt` (rows and lists, and the tables for which they stand) and
//! `specs/Changes.antt`. A change is followed by the steps of `fib_follow_*`, which are put together here; `change_tables` makes an edit of the
//! tables and has the entries follow it, both or neither (`specs/Following.antt` says why not). `specs/inner` only carries proofs.
#![tactic(auto)]

mod anew;
mod changing;
mod entries;
mod errors;
mod follow;
mod steps;
mod waking;

pub use changing::change_tables;
pub use entries::Entries;
pub use errors::ChangeError;
pub use fib_entries_rows::{FollowError, Followed, Moved, Row, Touched};
pub use fib_resolve_changes::Change;
