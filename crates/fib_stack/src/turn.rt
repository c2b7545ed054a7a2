// Turns.
ghost use Rattle.std.specs.Prelude.{◌≡◌, ◌+◌, ◌<◌, ◌≤◌, ℕ, IfOk, IsErrOf, OnErr, OnOk, Option, length};
ghost use Rattle.fib_addr.specs.Prefixes.{Prefix as PrefixValue};
ghost use Rattle.fib_resolve.specs.Aims.{marked_list};
ghost use Rattle.fib_resolve.specs.declared.types.Tables.{Tables as TablesValue};
ghost use Rattle.fib_resolve_changes.specs.Ranks.{has_entry};
ghost use Rattle.fib_stack_ledger.specs.Deferred.{late_at, late_count};
ghost use Rattle.fib_entries_rows.specs.Known.{StandsFor, rank_of};
ghost use Rattle.fib_plane_view.specs.Frames.{IsQuiet};
ghost use Rattle.fib_stack.specs.Done.{IsTurnDone, LeavesAll};
ghost use Rattle.fib_stack.specs.Joined.{Joined};
ghost use Rattle.fib_stack.specs.Moments.{moment, parts_of, state_at};
ghost use Rattle.fib_stack.specs.Records.{SamePlane};
ghost use Rattle.fib_stack.specs.Steps.{IsLeast, Removed};
ghost use Rattle.fib_stack.specs.inner.Leaving.{FromLeaving, IsLeaving};
ghost use Rattle.fib_stack.specs.inner.Turning.{EntryTurned, ForTables, FromNext, FromTurn, IsNext, IsTurnOf, PrefixTurned};

use crate::begin::begin;
use crate::finish::finish;
use crate::leave::leave;
use crate::records::Want;
use crate::stack::Stack;
use fib_addr::Prefix;
use fib_entries::Entries;
use fib_plane_view::Objects;
use fib_ply::PrefixTable;
use fib_resolve::Tables;
use fib_stack_queue::Queue;

/// What a turn did.
#[derive(Clone, Copy, Debug, PartialEq, Eq)]
pub enum Turn {
    /// A queued prefix was taken: its buckets are as wanted, or it left.
    Restacked {
        entry: Prefix,
        /// How many cells were stored, modulo 2^64.
        stores: u64,
        /// How many buckets drop in place of an edge that would close a cycle.
        dropped: u32,
    },
    /// Nothing is queued.
    Idle,
}

/// Whether the prefix is an entry.
fn is_entry(entries: &Entries, prefix: Prefix) -> bool
    ensures { (S : TablesValue) → StandsFor entries.now S → result ≡ has_entry S prefix }
{
    entries.chosen(prefix).is_some()
}

/// The turn of an entry. Answers how many buckets it left deferred.
fn restack<P: Objects>(
    on: &mut P,
    stack: &mut Stack,
    entries: &Entries,
    table: &mut PrefixTable,
    queue: &mut Queue,
    entry: Prefix,
) -> Result<u32, Want>
    requires turn { (S : TablesValue) × StandsFor entries.now S
        × IsTurnOf S (rank_of entries.now.rows) (P.promise on.old) (moment (P.view on.old) table.old stack.old queue.old) entry }
    ensures turn { let before = moment (P.view on.old) table.old stack.old queue.old in
        let after = moment (P.view on.new) table.new stack.new queue.new in
        FromTurn entries.now (P.promise on.old) before entry (λ S rank. OnOk result (EntryTurned S entry before after)) }
    ensures leaves { let before = moment (P.view on.old) table.old stack.old queue.old in
        let after = moment (P.view on.new) table.new stack.new queue.new in
        FromTurn entries.now (P.promise on.old) before entry
        (λ S rank. LeavesAll S rank (P.promise on.old) (IsErrOf result Want.Object) before after) }
    ensures count { IfOk result (λ n. n ≡ late_count (late_at stack.new.late.members entry) 16) }
    ensures stored { OnOk result ((P.view on.old).stored ≤ (P.view on.new).stored) }
    ensures err { OnErr result (SamePlane (P.view on.old) (P.view on.new)) }
    ensures parts { OnErr result (parts_of table.new stack.new queue.new ≡ parts_of table.old stack.old queue.old) }
    ensures short { ForTables entries.now (λ S. IsErrOf result Want.Object → (P.view on.old).free < 8 + length (marked_list S entry)) }
    ensures quiet { OnErr result ((look : PrefixValue → Option ℕ) → IsQuiet look (P.view on.old) (P.view on.new)) }
    ensures promise { P.promise on.new ≡ P.promise on.old }
{
    let plan = begin(on, stack, entries, table, queue, entry)?;
    Ok(finish(on, stack, table, queue, plan))
}

/// The turn of a prefix that left the entries.
fn drop_out<P: Objects>(
    on: &mut P,
    stack: &mut Stack,
    table: &mut PrefixTable,
    queue: &mut Queue,
    entry: Prefix,
) -> Result<u32, Want>
    requires left { (S : TablesValue) × (rank : PrefixValue → ℕ)
        × IsLeaving S rank (P.promise on.old) (moment (P.view on.old) table.old stack.old queue.old) entry }
    requires prefix { 1 ≤ entry.len }
    ensures turn { let before = moment (P.view on.old) table.old stack.old queue.old in
        let after = moment (P.view on.new) table.new stack.new queue.new in
        FromLeaving (P.promise on.old) before entry (λ S rank. OnOk result (Removed entry (state_at before) (state_at after))) }
    ensures joined { let before = moment (P.view on.old) table.old stack.old queue.old in
        let after = moment (P.view on.new) table.new stack.new queue.new in
        FromLeaving (P.promise on.old) before entry (λ S rank. Joined S rank (P.promise on.old) after.view after.parts) }
    ensures count { IfOk result (λ n. n ≡ late_count (late_at stack.new.late.members entry) 16) }
    ensures stored { OnOk result ((P.view on.old).stored ≤ (P.view on.new).stored) }
    ensures free { OnOk result ((P.view on.old).free ≤ (P.view on.new).free) }
    ensures err { OnErr result (SamePlane (P.view on.old) (P.view on.new)) }
    ensures parts { OnErr result (parts_of table.new stack.new queue.new ≡ parts_of table.old stack.old queue.old) }
    ensures short { IsErrOf result Want.Object → ⊥ }
    ensures quiet { OnErr result ((look : PrefixValue → Option ℕ) → IsQuiet look (P.view on.old) (P.view on.new)) }
    ensures promise { P.promise on.new ≡ P.promise on.old }
{
    let Ok(()) = table.room(on) else {
        return Err(Want::Memory);
    };
    leave(on, stack, table, queue, entry);
    Ok(0)
}

/// The turn of the prefix that is queued under the least rank. Answers how many buckets it left deferred.
fn take<P: Objects>(
    on: &mut P,
    stack: &mut Stack,
    entries: &Entries,
    table: &mut PrefixTable,
    queue: &mut Queue,
    entry: Prefix,
) -> Result<u32, Want>
    requires turn { (S : TablesValue) × StandsFor entries.now S
        × IsNext S (rank_of entries.now.rows) (P.promise on.old) (moment (P.view on.old) table.old stack.old queue.old) entry }
    ensures turn { let before = moment (P.view on.old) table.old stack.old queue.old in
        let after = moment (P.view on.new) table.new stack.new queue.new in
        FromNext entries.now (P.promise on.old) before entry (λ S rank. OnOk result (PrefixTurned S rank entry before after)) }
    ensures leaves { let before = moment (P.view on.old) table.old stack.old queue.old in
        let after = moment (P.view on.new) table.new stack.new queue.new in
        FromNext entries.now (P.promise on.old) before entry
        (λ S rank. LeavesAll S rank (P.promise on.old) (IsErrOf result Want.Object) before after) }
    ensures count { IfOk result (λ n. n ≡ late_count (late_at stack.new.late.members entry) 16) }
    ensures stored { OnOk result ((P.view on.old).stored ≤ (P.view on.new).stored) }
    ensures err { OnErr result (SamePlane (P.view on.old) (P.view on.new)) }
    ensures parts { OnErr result (parts_of table.new stack.new queue.new ≡ parts_of table.old stack.old queue.old) }
    ensures short { ForTables entries.now (λ S. IsErrOf result Want.Object → (P.view on.old).free < 8 + length (marked_list S entry)) }
    ensures quiet { OnErr result ((look : PrefixValue → Option ℕ) → IsQuiet look (P.view on.old) (P.view on.new)) }
    ensures promise { P.promise on.new ≡ P.promise on.old }
{
    // A length tells that it is a prefix: the bits past it are cleared.
    let _length = entry.len();
    if is_entry(entries, entry) {
        return restack(on, stack, entries, table, queue, entry);
    }
    drop_out(on, stack, table, queue, entry)
}

impl Stack {
    /// Takes the queued prefix of the least rank. An entry's balance gets its wanted buckets, and then it is added to the prefix table if it
    /// isn't there; a prefix that left the entries leaves the table, and its balance is let go. A wanted bucket drops, and is deferred, only
    /// where its edge closes a cycle with current and retired edges of the plane as it is at its put.
    ///
    /// After a fault the prefix is still queued and all is as before, but for the count of stores. `Object` comes only where fewer objects are
    /// free than the prefix has paths and eight: its balance, and a ply for each group of four bits below the root. Where room was left since
    /// the tables changed it never comes, and the turn leaves room for the next ones: what it takes is for things that the size of the tables
    /// counts and that were not made, and they are made then.
    pub fn turn<P: Objects>(
        &mut self,
        on: &mut P,
        tables: &Tables,
        entries: &Entries,
        table: &mut PrefixTable,
        queue: &mut Queue,
    ) -> Result<Turn, Want>
        requires stands { StandsFor entries.now tables.now }
        requires joined { Joined tables.now (rank_of entries.now.rows) (P.promise on.old) (P.view on.old)
            (parts_of table.old self.old queue.old) }
        ensures turn { let before = moment (P.view on.old) table.old self.old queue.old in
            let after = moment (P.view on.new) table.new self.new queue.new in
            IfOk result (λ t. IsTurnDone tables.now (rank_of entries.now.rows) t before after) }
        ensures leaves { let before = moment (P.view on.old) table.old self.old queue.old in
            let after = moment (P.view on.new) table.new self.new queue.new in
            LeavesAll tables.now (rank_of entries.now.rows) (P.promise on.new) (IsErrOf result Want.Object) before after }
        ensures err { OnErr result (SamePlane (P.view on.old) (P.view on.new)) }
        ensures parts { OnErr result (parts_of table.new self.new queue.new ≡ parts_of table.old self.old queue.old) }
        ensures short { let before = moment (P.view on.old) table.old self.old queue.old in
            IsErrOf result Want.Object → (e : PrefixValue) × IsLeast (rank_of entries.now.rows) (state_at before) e
            × (before.view.free < 8 + length (marked_list tables.now e)) }
        ensures quiet { OnErr result ((look : PrefixValue → Option ℕ) → IsQuiet look (P.view on.old) (P.view on.new)) }
        ensures promise { P.promise on.new ≡ P.promise on.old }
    {
        let before = on.stored();
        let Some(next) = queue.least() else {
            return Ok(Turn::Idle);
        };
        let entry = next.prefix;
        let dropped = take(on, self, entries, table, queue, entry)?;
        let stores = on.stored().wrapping_sub(before);
        Ok(Turn::Restacked {
            entry,
            stores,
            dropped,
        })
    }
}
