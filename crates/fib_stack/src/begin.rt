// A turn of an entry, up to its first put.
ghost use Rattle.std.specs.Prelude.{◌≡◌, ◌+◌, ◌<◌, ◌≤◌, ℕ, Some, true, IfOk, IsErrOf, OnErr, OnOk, Option, length};
ghost use Rattle.fib_addr.specs.Prefixes.{Prefix as PrefixValue};
ghost use Rattle.fib_resolve.specs.Aims.{marked_list};
ghost use Rattle.fib_resolve.specs.declared.types.Tables.{Tables as TablesValue};
ghost use Rattle.fib_resolve_changes.specs.Ranks.{has_entry};
ghost use Rattle.fib_entries_rows.specs.Known.{StandsFor, rank_of};
ghost use Rattle.fib_core_steady.specs.Names.{Names};
ghost use Rattle.fib_plane_view.specs.Frames.{IsQuiet};
ghost use Rattle.fib_plane_view.specs.Promise.{Serves};
ghost use Rattle.fib_plane_view.specs.Stores.{StoresEach};
ghost use Rattle.fib_ply.specs.Tables.{object_in};
ghost use Rattle.fib_stack.specs.Calls.{TakesOnly};
ghost use Rattle.fib_stack.specs.Records.{IsObjectOf, LacksFor, SamePlane, TookNew, records_for};
ghost use Rattle.fib_stack.specs.Moments.{moment, parts_of};
ghost use Rattle.fib_stack.specs.inner.Readied.{HasRoomFor, IsUnderway, balances_for};
ghost use Rattle.fib_stack.specs.inner.Turning.{ForTables, FromTurn, IsTurnOf};

use crate::ready::{make_room, object_for, read};
use crate::records::{Want, give_all, take_all};
use crate::stack::{Plan, Stack};
use fib_addr::Prefix;
use fib_entries::Entries;
use fib_plane_view::Objects;
use fib_ply::PrefixTable;
use fib_stack_queue::Queue;

/// Makes the turn of an entry ready. After a fault all is as before, but for the room and the count of stores. `Object` comes only where fewer
/// objects are free than the entry has paths and eight: its balance, and a ply for each group of four bits below the root.
pub fn begin<P: Objects>(
    on: &mut P,
    stack: &mut Stack,
    entries: &Entries,
    table: &mut PrefixTable,
    queue: &mut Queue,
    entry: Prefix,
) -> Result<Plan, Want>
    requires turn { (S : TablesValue) × StandsFor entries.now S
        × IsTurnOf S (rank_of entries.now.rows) (P.promise on.old) (moment (P.view on.old) table.old stack.old queue.old) entry }
    ensures entry { IfOk result (λ plan. plan.entry ≡ entry) }
    ensures underway { let before = moment (P.view on.old) table.old stack.old queue.old in
        let after = moment (P.view on.new) table.new stack.new queue.new in
        FromTurn entries.now (P.promise on.old) before entry
        (λ S rank. IfOk result (IsUnderway S rank (P.promise on.old) before.view after)) }
    ensures room { IfOk result (λ plan. HasRoomFor (P.view on.new) stack.new table.new queue.new (length plan.uses.items)
        (length plan.woken.items)) }
    ensures parts { parts_of table.new stack.new queue.new ≡ parts_of table.old stack.old queue.old }
    ensures err { OnErr result (SamePlane (P.view on.old) (P.view on.new)) }
    ensures short { ForTables entries.now (λ S. IsErrOf result Want.Object → (P.view on.old).free < 8 + length (marked_list S entry)) }
    ensures taken { ForTables entries.now (λ S. OnOk result
        (TookNew (P.view on.old) (P.view on.new) (records_for (marked_list S entry)) (balances_for (object_in table.old entry)))) }
    ensures calls { OnOk result (TakesOnly (P.view on.old) (P.view on.new)) }
    ensures stores { IfOk result (λ plan. (o : ℕ) → object_in table.old entry ≡ Some o
        → StoresEach (λ y k. IsObjectOf plan.uses.items y) (P.view on.old) (P.view on.new)) }
    ensures lacks { ForTables entries.now
        (λ S. IsErrOf result Want.Object → LacksFor (P.view on.old) (records_for (marked_list S entry)) 8) }
    ensures quiet { (look : PrefixValue → Option ℕ) → IsQuiet look (P.view on.old) (P.view on.new) }
    ensures serves { (n : Names) → Serves (P.promise on.old) n (P.view on.old) → Serves (P.promise on.old) n (P.view on.new) }
    ensures promise { P.promise on.new ≡ P.promise on.old }
{
    let Ok(mut plan) = read(stack.late.allocator(), &stack.ledger, entries, entry) else {
        return Err(Want::Memory);
    };
    let marks = entries.marked(entry);
    let Ok(()) = make_room(on, stack, table, queue, marks.len(), plan.woken.len()) else {
        return Err(Want::Memory);
    };
    take_all(on, marks, &mut plan.uses)?;
    let Some(object) = object_for(on, table, entry) else {
        give_all(on, plan.uses.as_slice());
        return Err(Want::Object);
    };
    plan.object = object;
    Ok(plan)
}
