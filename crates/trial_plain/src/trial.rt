// One owner for the controls of all trials.
ghost use Rattle.std.specs.Prelude.{IfOk, ◌≡◌};
ghost use Rattle.fib_core_board.specs.Told.{IsWithinLimits};
ghost use Rattle.trial_plain.specs.Seats.{first_seats, seats_in};

use crate::steps::fresh_over;
use crate::trouble::Trouble;
use fib_control::Control;
use fib_core_plainboard::PlainBoard;
use std::alloc::Global;

/// What is done with a control before its first change.
pub(crate) trait Trial {
    /// What is found.
    type Found;

    /// What is so of all that is found.
    ghost is_so: { Self.Found → Type 0 };

    /// Does it.
    fn find(&self, alloc: Global, control: &mut Control<PlainBoard>) -> Result<Self::Found, Trouble>
        requires { seats_in control.old ≡ first_seats }
        ensures { IfOk result is_so };
}

/// What a trial finds on a control over that many objects.
///
/// It alone owns a control, and has one way out from then on: the prover follows each way out of an owner past all that it drops.
pub(crate) fn found_by<T: Trial>(
    alloc: Global,
    objects: u32,
    trial: &T,
) -> Result<T::Found, Trouble>
    requires { IsWithinLimits objects 1 }
    ensures { IfOk result T.is_so }
{
    let mut control = fresh_over(alloc, objects)?;
    trial.find(alloc, &mut control)
}
