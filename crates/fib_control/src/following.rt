// The entries follow changes, once the queue has room for all that they may touch.
ghost use Rattle.std.specs.Prelude.{◌≡◌, ◌*◌, ◌<◌, ◌≤◌, ◌^◌, ◌-◌, ◌||◌, IfErr, IfOk, None, OnErr, OnOk, min};
ghost use Rattle.fib_addr.specs.Prefixes.{Prefix as PrefixValue};
ghost use Rattle.fib_resolve.specs.Edits.{edited};
ghost use Rattle.fib_resolve.specs.Reachable.{IsWritten};
ghost use Rattle.fib_resolve.specs.Refusals.{refused};
ghost use Rattle.fib_resolve.specs.declared.types.Edit.{Edit as EditValue};
ghost use Rattle.fib_entries.specs.Following.{TellsChange};
ghost use Rattle.fib_resolve.specs.Sizes.{size};
ghost use Rattle.fib_resolve.specs.Touched.{is_touched};
ghost use Rattle.fib_resolve.specs.declared.types.Tables.{Tables as TablesValue};
ghost use Rattle.fib_resolve_changes.specs.Differ.{Differ};
ghost use Rattle.fib_entries_rows.specs.Changes.{FromBefore, IsFollowed};
ghost use Rattle.fib_entries_rows.specs.Known.{StandsFor, rank_of};
ghost use Rattle.fib_stack_queue.specs.Queues.{rank_in};
ghost use Rattle.fib_core_promise.specs.Stack.{is_some};
ghost use Rattle.fib_stack_waking.specs.Waking.{AreRanked};
ghost use Rattle.fib_control.specs.Controls.{IsTooMuch, TellsEdit};

use crate::errors::ApplyError;
use crate::queueing::queue_all;
use fib_config::Config;
use fib_entries::{ChangeError, Entries, FollowError, Followed, change_tables};
use fib_resolve::{Edit, Refusal};
use fib_resolve_changes::Change;
use fib_stack_queue::Queue;
use std::alloc::Global;

/// How many objects there are for tables.
#[derive(Clone, Copy)]
pub struct Limits {
    /// The most that any tables may take.
    pub room: u32,
    /// How many are free.
    pub free: u32,
}

// The most that the tables may take now.
fn least_of(limits: Limits) -> u32
    ensures { result ≡ min limits.room limits.free }
{
    if limits.room < limits.free {
        limits.room
    } else {
        limits.free
    }
}

// What the size of tables is refused for, where it is above one of the limits.
fn too_many(limits: Limits, size: u32) -> ApplyError
    ensures { min limits.room limits.free < size → IsTooMuch limits size result }
{
    if size > limits.room {
        return ApplyError::Refused(Refusal::TooLarge);
    }
    ApplyError::Crowded {
        free: limits.free,
        wanted: size,
    }
}

// Makes the entries stand for tables after changes, where their size is within the limits.
fn follow_within(
    config: &Config,
    entries: &mut Entries,
    changes: &[Change],
    limits: Limits,
) -> Result<Followed, ApplyError>
    requires room { limits.room < 2 ^ 32 - 1 }
    ensures followed { IfOk result (λ f. FromBefore entries.old changes.now config.now.tables
        (λ S. IsFollowed entries.old entries.new S config.now.tables (min limits.room limits.free) f)) }
    ensures why { IfErr result (λ e. FromBefore entries.old changes.now config.now.tables
        (λ _. IsTooMuch limits (size config.now.tables) e)) }
    ensures err { OnErr result (entries.new ≡ entries.old) }
{
    match entries.follow_changes(config, changes, least_of(limits)) {
        Ok(followed) => Ok(followed),
        Err(FollowError::TooMany(size)) => Err(too_many(limits, size)),
        Err(FollowError::Memory) => Err(ApplyError::Memory),
    }
}

// Makes the entries stand for tables after changes, where their size is within the limits and the queue can be given room for what is touched.
// After a fault all but the queue's room is as before.
fn follow(
    alloc: Global,
    config: &Config,
    entries: &mut Entries,
    queue: &mut Queue,
    changes: &[Change],
    limits: Limits,
) -> Result<Followed, ApplyError>
    requires room { limits.room < 2 ^ 32 - 1 }
    ensures followed { IfOk result (λ f. FromBefore entries.old changes.now config.now.tables
        (λ S. IsFollowed entries.old entries.new S config.now.tables (min limits.room limits.free) f)) }
    ensures space { OnOk result (4 * limits.room ≤ queue.new.spare) }
    ensures why { IfErr result (λ e. FromBefore entries.old changes.now config.now.tables
        (λ _. IsTooMuch limits (size config.now.tables) e)) }
    ensures queue { queue.new.members ≡ queue.old.members }
    ensures err { OnErr result (entries.new ≡ entries.old) }
{
    let Ok(()) = queue.reserve(alloc, 4 * limits.room as usize) else {
        return Err(ApplyError::Memory);
    };
    follow_within(config, entries, changes, limits)
}

/// Makes the entries stand for tables after changes, and queues what they touch, where their size is within the limits. After a fault all but the
/// queue's room is as before.
pub fn follow_all(
    alloc: Global,
    config: &Config,
    entries: &mut Entries,
    queue: &mut Queue,
    changes: &[Change],
    limits: Limits,
) -> Result<(), ApplyError>
    requires room { limits.room < 2 ^ 32 - 1 }
    requires before { (S : TablesValue) × StandsFor entries.old S × Differ changes.now S config.now.tables × (size S ≤ limits.room) }
    ensures stands { OnOk result (StandsFor entries.new config.now.tables) }
    ensures queued { OnOk result ((S : TablesValue) → StandsFor entries.old S → Differ changes.now S config.now.tables → (d : PrefixValue)
        → is_some (rank_in queue.new.members d) ≡ is_some (rank_in queue.old.members d) || is_touched S config.now.tables d) }
    ensures ranks { OnOk result (AreRanked (rank_of entries.old.rows) queue.old.members
        → AreRanked (rank_of entries.new.rows) queue.new.members) }
    ensures fits { OnOk result ((size config.now.tables ≤ limits.room) × (size config.now.tables ≤ limits.free)) }
    ensures why { IfErr result (IsTooMuch limits (size config.now.tables)) }
    ensures queue { OnErr result (queue.new.members ≡ queue.old.members) }
    ensures entries { OnErr result (entries.new ≡ entries.old) }
{
    let followed = follow(alloc, config, entries, queue, changes, limits)?;
    queue_all(queue, entries, &followed);
    Ok(())
}

// Why an edit makes no change.
fn fault_of(limits: Limits, error: ChangeError) -> ApplyError
    requires room { limits.room < 2 ^ 32 - 1 }
    ensures { (S : TablesValue) (e : EditValue) → TellsChange S (min limits.room limits.free) e error → TellsEdit S limits e result }
{
    match error {
        ChangeError::Refused(refusal) => ApplyError::Refused(refusal),
        ChangeError::TooMany(size) => too_many(limits, size),
        ChangeError::Memory => ApplyError::Memory,
    }
}

/// Makes an edit of the tables, has the entries follow it, and queues what it touches, where the edited tables are within the limits. After a fault
/// all but the queue's room is as before.
pub fn change(
    alloc: Global,
    config: &mut Config,
    entries: &mut Entries,
    queue: &mut Queue,
    edit: &Edit,
    limits: Limits,
) -> Result<(), ApplyError>
    requires written { IsWritten edit.now }
    requires stands { StandsFor entries.old config.old.tables }
    requires fits { size config.old.tables ≤ limits.room }
    requires room { limits.room < 2 ^ 32 - 1 }
    ensures accepted { OnOk result (refused config.old.tables limits.room edit.now ≡ None) }
    ensures edited { OnOk result (config.new ≡ record config.old { tables = edited config.old.tables edit.now }) }
    ensures stands { OnOk result (StandsFor entries.new config.new.tables) }
    ensures queued { OnOk result ((d : PrefixValue) → is_some (rank_in queue.new.members d) ≡ is_some (rank_in queue.old.members d)
        || is_touched config.old.tables config.new.tables d) }
    ensures ranks { OnOk result (AreRanked (rank_of entries.old.rows) queue.old.members
        → AreRanked (rank_of entries.new.rows) queue.new.members) }
    ensures fits { OnOk result ((size config.new.tables ≤ limits.room) × (size config.new.tables ≤ limits.free)) }
    ensures why { IfErr result (TellsEdit config.old.tables limits edit.now) }
    ensures config { OnErr result (config.new ≡ config.old) }
    ensures queue { OnErr result (queue.new.members ≡ queue.old.members) }
    ensures entries { OnErr result (entries.new ≡ entries.old) }
{
    let Ok(()) = queue.reserve(alloc, 4 * limits.room as usize) else {
        return Err(ApplyError::Memory);
    };
    match change_tables(config, entries, edit, least_of(limits)) {
        Ok(followed) => {
            queue_all(queue, entries, &followed);
            Ok(())
        }
        Err(error) => Err(fault_of(limits, error)),
    }
}
