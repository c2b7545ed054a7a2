// Results to a tap.
ghost use Rattle.std.specs.Prelude.{◌≤◌, OnOk, OnErr, IsErrOf};
ghost use Rattle.fib_outside.specs.Outside.{HasRisen};
ghost use Rattle.fib_rounds_taps.specs.Taps.{Takes, TakesSome};

use crate::{Tap, TapFault};
use fib_core_results::Record;

/// Has a tap take all of these in turn. After a fault it has taken the first of them.
pub fn take_all<T: Tap>(tap: &mut T, results: &[(u32, Record)]) -> Result<(), TapFault>
    ensures ok { OnOk result (Takes (T.taken tap.old) (T.taken tap.new) results.now) }
    ensures err { OnErr result (TakesSome (T.taken tap.old) (T.taken tap.new) results.now) }
    ensures fault { IsErrOf result TapFault.Fault → HasRisen (T.faults tap.old) (T.faults tap.new) }
    ensures counted { T.faults tap.old ≤ T.faults tap.new }
{
    'results: for kept in results {
        tap.take(kept.0, &kept.1)?;
    }
    Ok(())
}
