// What is noted before a plan is written, and forgotten after.
ghost use Rattle.std.specs.Prelude.{List, OnOk};
ghost use Rattle.fib_addr.specs.Prefixes.{Prefix};
ghost use Rattle.fib_entries_rows.specs.Known.{PathKept};
ghost use Rattle.fib_entries_rows.specs.Rows.{Row};
ghost use Rattle.fib_follow_features.specs.FoundBy.{AreNoted};
ghost use Rattle.fib_follow_plan.specs.Noted.{AreFoundAll, AreFull, FindsOnly, ForgetsAll};

use crate::entry::Renoted;
use fib_follow_features::Features;
use std::alloc::AllocError;

/// Each is found by its new features too. After want of memory some may be.
pub fn note_all(features: &mut Features, list: &[Renoted]) -> Result<(), AllocError>
    ensures stays { (lists : List PathKept) (order : List Prefix) (rows : List Row) → AreNoted lists order rows features.old
        → AreNoted lists order rows features.new }
    ensures noted { OnOk result (AreFoundAll list.now features.new) }
    ensures only { FindsOnly list.now features.old features.new }
{
    for x in list {
        features.note(x.prefix, x.new.as_slice())?;
    }
    Ok(())
}

/// None of them is found any more by old features that it hasn't any more. Takes no memory.
pub fn forget_all(features: &mut Features, list: &[Renoted])
    ensures gone { ForgetsAll list.now features.old features.new }
    ensures stays { (lists : List PathKept) (order : List Prefix) (rows : List Row) → AreFull lists order rows list.now
        → AreNoted lists order rows features.old → AreNoted lists order rows features.new }
{
    for x in list {
        features.forget(x.prefix, x.old.as_slice(), x.new.as_slice());
    }
}
