// The files of a run, and the fault of the outside.

/// One of the two files of a run.
#[derive(Clone, Copy, Debug, PartialEq, Eq)]
pub enum Part {
    /// The command file.
    Commands,
    /// The packet capture.
    Capture,
}

/// A call of the outside failed, and the count of its faults rose.
#[derive(Clone, Copy, Debug, PartialEq, Eq)]
pub struct Failed;
