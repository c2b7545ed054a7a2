//! What tables have of one prefix, made anew by look-ups, and compared with what rows have of it.
//!
//! `base_pairs` are the pairs that depend on no cover; `pairs` are all, where for a host its cover, how that attaches it, and whether it
//! is a next hop are known beside. `made_anew` makes a prefix's entry, or says that there is none; `is_unchanged` says whether the rows
//! have the same. `specs/Fresh.antt` says what that is; `specs/inner` only carries proofs.
#![tactic(auto)]

mod base;
mod compare;
mod fresh;
mod host;

pub use base::{attached_at, base_pairs};
pub use compare::{are_same, attached_in, is_as_found, is_unchanged};
pub use fresh::{Fresh, FreshEntry, made_anew, pairs};
pub use host::{Host, host_pairs, host_under, is_next_hop};
