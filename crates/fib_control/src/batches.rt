// Several edits as one change.
ghost use Rattle.std.specs.Prelude.{◌≡◌, ◌<◌, ◌≤◌, ◌^◌, ◌-◌, ◌||◌, IfErr, List, Ok, OnErr, OnOk, length};
ghost use Rattle.std.specs.List.{AllByRecursion};
ghost use Rattle.fib_addr.specs.Prefixes.{Prefix as PrefixValue};
ghost use Rattle.fib_resolve.specs.Reachable.{IsWritten};
ghost use Rattle.fib_resolve.specs.Refusals.{edited_in_turn};
ghost use Rattle.fib_resolve.specs.Sizes.{size};
ghost use Rattle.fib_resolve.specs.Touched.{is_touched};
ghost use Rattle.fib_resolve.specs.declared.types.Edit.{Edit as EditValue};
ghost use Rattle.fib_resolve.specs.declared.types.Tables.{Tables as TablesValue};
ghost use Rattle.fib_config.specs.Config.{TellsFirstRefused};
ghost use Rattle.fib_entries_rows.specs.Known.{StandsFor, rank_of};
ghost use Rattle.fib_stack_queue.specs.Queues.{rank_in};
ghost use Rattle.fib_core_promise.specs.Stack.{is_some};
ghost use Rattle.fib_control.specs.declared.following.Limits.{Limits as LimitsValue};
ghost use Rattle.fib_stack_waking.specs.Waking.{AreRanked};
ghost use Rattle.fib_control.specs.Controls.{IsTooMuch, TellsBatch, WantsMore};

use crate::errors::{ApplyError, BatchApplyError};
use crate::following::{Limits, follow_all};
use fib_config::{BatchError, Config, EditedAll, Undo};
use fib_entries::Entries;
use fib_resolve::Edit;
use fib_stack_queue::Queue;
use std::alloc::Global;

// Why edits one of which is refused make no change.
fn refused_of(error: BatchError) -> BatchApplyError
    ensures { (S : TablesValue) (l : LimitsValue) (es : List EditValue) → TellsFirstRefused (edited_in_turn S l.room es) error
        → TellsBatch S l es result }
{
    match error {
        BatchError::Refused { place, refusal } => BatchApplyError::Refused { place, refusal },
        BatchError::Memory => BatchApplyError::Memory,
    }
}

// Why edits none of which is refused make no change.
fn crowded_of(error: ApplyError) -> BatchApplyError
    requires { WantsMore error }
    ensures { (S T : TablesValue) (l : LimitsValue) (es : List EditValue) → edited_in_turn S l.room es ≡ Ok T → IsTooMuch l (size T) error
        → TellsBatch S l es result }
{
    match error {
        ApplyError::Crowded { free, wanted } => BatchApplyError::Crowded { free, wanted },
        ApplyError::Memory => BatchApplyError::Memory,
        ApplyError::Refused(_) => unreachable!(),
    }
}

// What takes the edits back isn't wanted any more.
fn forget(_undos: Vec<Undo>) {}

/// Makes edits of the tables in turn, has the entries follow all of them at once, and queues what they touch together, where no edit is refused and
/// the tables after the last are within the limits. After a fault all but the queue's room is as before.
pub fn change_all(
    alloc: Global,
    config: &mut Config,
    entries: &mut Entries,
    queue: &mut Queue,
    edits: &[Edit],
    limits: Limits,
) -> Result<(), BatchApplyError>
    requires written { AllByRecursion IsWritten edits.now }
    requires few { length edits.now < 2 ^ 32 }
    requires stands { StandsFor entries.old config.old.tables }
    requires fits { size config.old.tables ≤ limits.room }
    requires same { limits.room ≡ config.old.room }
    requires room { limits.room < 2 ^ 32 - 1 }
    ensures made { OnOk result (edited_in_turn config.old.tables limits.room edits.now ≡ Ok config.new.tables) }
    ensures room { config.new.room ≡ config.old.room }
    ensures stands { OnOk result (StandsFor entries.new config.new.tables) }
    ensures queued { OnOk result ((d : PrefixValue) → is_some (rank_in queue.new.members d) ≡ is_some (rank_in queue.old.members d)
        || is_touched config.old.tables config.new.tables d) }
    ensures ranks { OnOk result (AreRanked (rank_of entries.old.rows) queue.old.members
        → AreRanked (rank_of entries.new.rows) queue.new.members) }
    ensures fits { OnOk result ((size config.new.tables ≤ limits.room) × (size config.new.tables ≤ limits.free)) }
    ensures why { IfErr result (TellsBatch config.old.tables limits edits.now) }
    ensures config { OnErr result (config.new ≡ config.old) }
    ensures queue { OnErr result (queue.new.members ≡ queue.old.members) }
    ensures entries { OnErr result (entries.new ≡ entries.old) }
{
    let EditedAll { changes, undos } = match config.change_all(edits) {
        Ok(edited) => edited,
        Err(error) => return Err(refused_of(error)),
    };
    match follow_all(alloc, config, entries, queue, changes.as_slice(), limits) {
        Ok(()) => {
            forget(undos);
            Ok(())
        }
        Err(error) => {
            config.undo_all(undos);
            Err(crowded_of(error))
        }
    }
}
