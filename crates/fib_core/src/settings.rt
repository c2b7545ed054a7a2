// The sizes of a run.
ghost use Rattle.std.specs.Prelude.{◌↔◌, IsTrue};
ghost use Rattle.fib_core.specs.Ranges.{InRange};

/// The sizes of a run. Each has a range; `is_in_range` tests all three.
#[derive(Clone, Copy, Debug, PartialEq, Eq)]
pub struct Settings {
    /// How many workers: 1 to 8.
    pub workers: u32,
    /// How many objects the forwarding tables may have: an even number, 64 to 131,072.
    pub objects: u32,
    /// How many turns a back-walk may take: 0 to 65,535.
    pub walk: u32,
}

impl Settings {
    /// Whether each size lies in its range.
    pub fn is_in_range(&self) -> bool
        ensures { IsTrue result ↔ InRange self.now }
    {
        1 <= self.workers
            && self.workers <= 8
            && 64 <= self.objects
            && self.objects <= 131_072
            && self.objects % 2 == 0
            && self.walk <= 65_535
    }
}
