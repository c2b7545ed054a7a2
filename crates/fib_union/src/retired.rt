// Edges that were replaced, and how far the looks at a worker's word have come over them.

/// An edge that was replaced in this cell, and how many places before it the next older one from the same object stands: none where that
/// is before the first place.
#[derive(Clone, Copy)]
pub struct RetiredEdge {
    pub cell: u64,
    pub to: u32,
    pub back: u32,
}

/// The looks at one worker's pass word: the retired edges before the first place are passed for the worker, and the others before the
/// second had this word as their first; the rest is unseen.
#[derive(Clone, Copy)]
pub struct Progress {
    pub passed: u32,
    pub met: u32,
    pub word: u64,
}
