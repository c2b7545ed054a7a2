//! What the prefix table and the stack of buckets keep for steady traffic, and that their stores and turns keep it.
//!
//! `specs/Matches.antt` says when the prefix table fits the versions, `specs/Stack.antt` what is kept of entries and adjacency records, `specs/Turns.antt`
//! what a turn does as far as steady traffic reads it, `specs/Marks.antt` what of an entry a change may touch, and `specs/Kept.antt` which buckets
//! keep their word.
#![tactic(auto)]

pub mod laws;
