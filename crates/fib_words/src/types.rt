// What the words ask for.

use fib_core::Settings;

/// Where the lines and the packets of a run come from.
#[derive(Clone, Copy, Debug, PartialEq, Eq)]
pub enum Source<'a> {
    /// They are generated from this seed.
    Soak(u32),
    /// They are read from files, whose names stand here as they were given.
    Files {
        /// The file of the lines.
        commands: &'a str,
        /// The file of the packets, where one is named.
        capture: Option<&'a str>,
    },
}

/// All that the words ask for.
#[derive(Clone, Copy, Debug, PartialEq, Eq)]
pub struct Asked<'a> {
    /// The sizes of the run.
    pub settings: Settings,
    /// Where its lines and packets come from.
    pub source: Source<'a>,
}
