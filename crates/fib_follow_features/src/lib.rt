//! By what entries are found without a look at all of them: the interfaces, Hop ends and next hops of their paths, and the covers of hosts.
//!
//! `specs/FoundBy.antt` says by what an entry is found, and `specs/Holders.antt` how what is kept of this changes; `specs/inner` only
//! carries proofs. What is kept may tell of more entries than have a feature: it is noted before a row is written and forgotten after,
//! and the row is asked again. The laws say that it tells of all of them.
#![tactic(auto)]

mod feature;
mod features;
mod found_by;
pub mod laws;

pub use feature::Feature;
pub use features::Features;
pub use found_by::{cover_among, features_under, pair_features, row_features};
