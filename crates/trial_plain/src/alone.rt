// Settling while nobody is out.
ghost use Rattle.std.specs.Prelude.{OnOk, ◌≡◌};
ghost use Rattle.fib_control.specs.Controls.{IsQuiet};
ghost use Rattle.trial_plain.specs.Seats.{IsHome, first_seats, seats_in};

use crate::held::base;
use crate::steps::{FEW, settle};
use crate::trial::{Trial, found_by};
use crate::trouble::Trouble;
use fib_control::{Busy, Control};
use fib_core_plainboard::PlainBoard;
use std::alloc::Global;

/// Settles the last version, and answers its number.
pub fn settle_alone(control: &mut Control<PlainBoard>) -> Result<u32, Trouble>
    requires { IsHome (seats_in control.old) }
    ensures seats { seats_in control.new ≡ seats_in control.old }
    ensures quiet { OnOk result (IsQuiet control.new) }
{
    match control.settle_alone() {
        Ok(version) => Ok(version),
        Err(_) => Err(Trouble::Memory),
    }
}

/// What is found.
#[derive(Clone, Copy, Debug, PartialEq, Eq)]
pub struct Settled {
    /// What settling answers before any turn.
    pub before: Result<u32, Busy>,
    /// The version that is settled then.
    pub version: u32,
    /// How many objects are used.
    pub used: u32,
}

// The same on a control before its first change.
fn settle_lines(alloc: Global, control: &mut Control<PlainBoard>) -> Result<Settled, Trouble>
    requires { seats_in control.old ≡ first_seats }
{
    base(alloc, control)?;
    let before = settle(control);
    let version = settle_alone(control)?;
    Ok(Settled {
        before,
        version,
        used: control.used(),
    })
}

#[derive(Clone, Copy)]
struct ThreeLines;

impl Trial for ThreeLines {
    type Found = Settled;

    ghost is_so = { λ found. Unit {0} };

    fn find(&self, alloc: Global, control: &mut Control<PlainBoard>) -> Result<Settled, Trouble> {
        settle_lines(alloc, control)
    }
}

/// Three changes are made and settled.
pub fn three_lines(alloc: Global) -> Result<Settled, Trouble> {
    found_by(alloc, FEW, &ThreeLines)
}
