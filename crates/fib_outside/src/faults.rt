// Counts of faults.
ghost use Rattle.std.specs.Prelude.{◌≡◌};
ghost use Rattle.fib_outside.specs.FaultCounts.{no_faults, raised_for};

use crate::Part;
use std::marker::Model;

/// How often the file of each part has failed. A count stands still at the end of 64 bits.
#[derive(Clone, Copy, Debug, PartialEq, Eq)]
pub struct Faults {
    commands: u64,
    capture: u64,
}

impl Model for Faults {
    ghost use Rattle.fib_outside.specs.FaultCounts.{FaultCounts};

    ghost Value = { FaultCounts };

    ghost view = { λ f. record { commands = f.commands; capture = f.capture } };

    ghost inverse = { λ c. record { commands = c.commands; capture = c.capture } };
}

impl Faults {
    pub fn new() -> Faults
        ensures { result ≡ no_faults }
    {
        Faults {
            commands: 0,
            capture: 0,
        }
    }

    pub fn raise(&mut self, part: Part)
        ensures { self.new ≡ raised_for self.old part }
    {
        match part {
            Part::Commands => self.commands = self.commands.saturating_add(1),
            Part::Capture => self.capture = self.capture.saturating_add(1),
        }
    }
}
