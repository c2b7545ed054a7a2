// Why a change is not made, or not settled.
use fib_resolve::Refusal;

/// Why a change was not made.
#[derive(Clone, Copy, Debug, PartialEq, Eq)]
pub enum ApplyError {
    /// The edit is refused, with the first reason that applies.
    Refused(Refusal),
    /// The edit isn't refused, but fewer objects are free than its tables take: what was used before is given back once what is queued had its
    /// turns and no pass stands on it.
    Crowded {
        /// How many objects are free.
        free: u32,
        /// How many the edited tables take.
        wanted: u32,
    },
    /// There was no memory.
    Memory,
}

/// Why several edits were not made as one change.
#[derive(Clone, Copy, Debug, PartialEq, Eq)]
pub enum BatchApplyError {
    /// The edit at that place, counted from 0, is the first that is refused on the tables that those before it give.
    Refused {
        place: u32,
        refusal: Refusal,
    },
    /// None is refused, but fewer objects are free than the tables after all of them take.
    Crowded {
        /// How many objects are free.
        free: u32,
        /// How many those tables take.
        wanted: u32,
    },
    /// There was no memory.
    Memory,
}

/// What keeps the last version from being settled. One of the three isn't 0.
#[derive(Clone, Copy, Debug, PartialEq, Eq)]
pub struct Busy {
    /// The prefixes that wait for their turn.
    pub queued: usize,
    /// The buckets that drop in place of an edge that would have closed a cycle.
    pub deferred: u32,
    /// The copies of edges that were replaced while a pass may have stood on them.
    pub retired: u32,
}
